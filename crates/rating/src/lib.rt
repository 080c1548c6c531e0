// A job over any surface: its calls, its duties, its figures, and the run of a whole list of calls.
#![tactic(auto)]

mod asking;
mod bounds;
pub mod duty;
pub mod effects;
pub mod job;
pub mod replay;
pub mod setting;
