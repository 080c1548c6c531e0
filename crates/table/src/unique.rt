// The reading of a table is determined by its bytes, and gives them back.
ghost use Rattle.table.specs.Tables.{ReadingRejoins};
ghost use Rattle.table.specs.Unique.{Unique};

// Holds nothing but its promise: no bytes can be read in two ways.
pub fn reading_is_unique()
    ensures { Unique }
{}

// Holds nothing but its promise: a table that was read to its end is its records, rejoined by the format's rules.
pub fn reading_rejoins()
    ensures { ReadingRejoins }
{}
