// What a run's table gave: the extent of its surface, and the lines that tell it.
#![tactic(auto)]

pub mod extent;
pub mod survey;
#[cfg(test)]
mod tests;
pub mod text;
