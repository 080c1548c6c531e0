// The lines that tell what a job answered, and the words and cells that they are made of.
#![tactic(auto)]

pub mod cells;
pub mod figures;
pub mod lanes;
pub mod others;
pub mod told;
pub mod words;
