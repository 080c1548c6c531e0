// The job card, the calls that a job is fed, what it answers, and why it refuses.
#![tactic(auto)]

pub mod answers;
pub mod calls;
pub mod entries;
pub mod fault;
