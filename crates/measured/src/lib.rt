// The measured surface: a draft that takes stations, and the sealed surface that answers for them.
#![tactic(auto)]

mod checks;
pub mod laws;
mod layout;
pub mod measured;
mod padding;
pub mod row;
#[cfg(test)]
mod tests;
