// What A of a slice and T of a lane start are, over the meaning of any surface: theory alone.
#![tactic(auto)]

ghost use Rattle.lines.specs.Facts.{AreasStand, TandemUnique, TandemExists, TandemPositive, Turning, Decks};

// The rule for A gives the greatest loaded area, and T with its place is determined.
pub fn lines_stand()
    ensures areas { AreasStand }
    ensures unique { TandemUnique }
    ensures exists { TandemExists }
    ensures positive { TandemPositive }
{}

// Turning the surface keeps every A and every T.
pub fn turning_stands()
    ensures { Turning }
{}

// A and T on the trial decks.
pub fn decks_stand()
    ensures { Decks }
{}
