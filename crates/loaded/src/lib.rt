// What the parts of a loaded carriageway count, and the best placement of its lanes.
#![tactic(auto)]

pub mod loads;
pub mod making;
pub mod parts;
pub mod rated;
