// A script has one verdict.
#![tactic(auto)]

ghost use Rattle.script_verdict.specs.Verdicts.{OneScript};

// Holds nothing but its promise: a script is read or refused, never both, and in one way only.
pub fn script_verdict_is_one()
    ensures { OneScript }
{}
