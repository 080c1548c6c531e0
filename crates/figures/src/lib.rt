// Figures and drawings of a carriageway on any surface, with the four lists that they fill.
#![tactic(auto)]

pub mod figures;
mod placed;
pub mod reported;
