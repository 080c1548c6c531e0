// The edge surface: one line of stations, shared out between the two edges of the deck.
#![tactic(auto)]

mod checks;
pub mod edge;
mod shares;
pub mod station;
