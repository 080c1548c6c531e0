// The best placement of lanes over a carriageway, for any kind of worth and any source of parts.
#![tactic(auto)]

pub mod bests;
pub mod choice;
mod entries;
pub mod lanes;
pub mod parts;
