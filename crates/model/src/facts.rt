// The facts of the tables that a reader can hold against the standard.

ghost use Rattle.model.specs.Facts.{Table41, LanesFit, LaneRange, WheelsInside, WheelsMirrored, WheelsOf55, Table42};

// Table 4.1 at every width, lanes that fit between the kerbs, and wheels that stand inside their lane.
pub fn lanes_stand()
    ensures table { Table41 }
    ensures fit { LanesFit }
    ensures range { LaneRange }
    ensures inside { WheelsInside }
    ensures mirrored { WheelsMirrored }
    ensures odd { WheelsOf55 }
{}

// Table 4.2 with the frequent values, row by row.
pub fn loads_stand()
    ensures { Table42 }
{}
