// A table has one verdict.
#![tactic(auto)]

ghost use Rattle.verdict.specs.Verdicts.{OneVerdict};

// Holds nothing but its promise: a table is taken or refused, never both, and in one way only.
pub fn verdict_is_one()
    ensures { OneVerdict }
{}
