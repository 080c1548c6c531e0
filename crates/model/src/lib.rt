// Load Model 1 as tables: lanes of a carriageway, owners of slices, loads and factors.
#![tactic(auto)]

pub mod facts;
pub mod lanes;
pub mod owners;
pub mod tandems;
pub mod weights;
