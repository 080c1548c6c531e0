// A script is run: its surface is made and turned, a job is opened over it, and its calls are made and told.
#![tactic(auto)]

mod answers;
pub mod ran;
mod turning;
pub mod whole;
