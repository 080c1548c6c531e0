// A script of a whole job: its surface, how that is turned, the opening and the calls.
#![tactic(auto)]

mod calls;
mod entries;
pub mod fault;
mod first;
pub mod lined;
pub mod opening;
pub mod part;
mod place;
mod rest;
mod stations;
pub mod tail;
pub mod turns;
pub mod whole;
mod words;
