// What the ordinates of every measured surface are.
ghost use Rattle.measured.specs.Spreading.{BetweenPaths, LeftOfPaths, RightOfPaths, RoundedDown};

// Between two paths a slice has their mean, rounded down; outside them it has the nearest path's ordinate.
pub fn ordinates_are_spread()
    ensures between { BetweenPaths }
    ensures left { LeftOfPaths }
    ensures right { RightOfPaths }
    ensures rounded { RoundedDown }
{}
