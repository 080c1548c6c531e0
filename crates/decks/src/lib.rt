// The trial decks, as facts of the definitions: theory alone.
#![tactic(auto)]

ghost use Rattle.decks.specs.Decks.{Decks, Printed, Wide};

// The starred decks, together.
pub fn decks_stand()
    ensures { Decks }
{}

// What is printed of the trial table.
pub fn printed_stand()
    ensures { Printed }
{}

// A wide deck with all five owners and eight factors that all differ, worked by hand.
pub fn wide_stands()
    ensures { Wide }
{}
