// What holds of every turned surface.
ghost use Rattle.surface.specs.Undone.{TurnsUndone};

// Turning twice the same way gives the surface that it was.
pub fn turns_are_undone()
    ensures { TurnsUndone }
{}
