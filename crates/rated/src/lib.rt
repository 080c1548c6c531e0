// A run's table is rated: its surface, the figures of a job over it, and the lines that tell them.
#![tactic(auto)]

pub mod rate;
#[cfg(test)]
mod tests;
pub mod text;
