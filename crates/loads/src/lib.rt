// A of every slice and T of every lane start of a carriageway, over any surface.
#![tactic(auto)]

mod areas;
pub mod grid;
mod held;
mod lanes;
mod line;
pub mod lists;
mod others;
mod peaks;
mod road;
mod segments;
mod stations;
mod sums;
mod tandems;
