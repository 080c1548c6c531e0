// What is read of a surface for a carriageway, each number once.

ghost use Rattle.std.specs.Prelude.{ℕ, ◌<◌, ◌≤◌, [], pos, slice_index_or, unsigned_abs};
ghost use Rattle.loads.specs.Axles.{OthersAre};
ghost use Rattle.loads.specs.declared.others.Others.{Others as TheOthers};

use crate::others::Others;
use crate::stations::{STATIONS, Stations};

// The most slices that a surface has.
pub(crate) const SLICES: usize = 300;

// The stations, the other axle of each tandem with an axle at one of them, and a row of ordinates for each slice of
// the carriageway; the rows after them are 0.
// Arrays of fixed size: what fills them cannot fail for want of memory.
#[derive(Drop)]
pub struct Grid {
    pub(crate) stations: Stations,
    pub(crate) others: [Others; STATIONS],
    pub(crate) heights: [[i32; STATIONS]; SLICES],
    ghost paired: { (i : ℕ) (o : TheOthers) → i < stations.count → OthersAre stations.count stations.places i (slice_index_or others i o) },
    ghost low: { (j k : ℕ) → unsigned_abs (slice_index_or (slice_index_or heights j []) k (pos 0)) ≤ 100000 },
}
