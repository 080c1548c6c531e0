// A carriageway with the area of each slice, the tandem of each lane start, and the loads by their kind and factors.

ghost use Rattle.std.specs.Prelude.{◌≡◌, ℕ, ◌+◌, ◌*◌, ◌<◌, ◌≤◌, length, count_ones, slice_index, slice_index_or};
ghost use Rattle.algebra.specs.Sums.{total};
ghost use Rattle.model.specs.Owners.{number_of};
ghost use Rattle.model.specs.Tandems.{no_tandem};
ghost use Rattle.model.specs.Weights.{tandem_factor, uniform_factor, tandem_weight, uniform_weight};
ghost use Rattle.model.specs.declared.owners.Owner.{Owner};
ghost use Rattle.placing.specs.Loaded.{most_area, most_top};

use model::tandems::Tandem;
use model::weights::{Factors, LoadKind};
use placement::lanes::LaneSet;

// Of fixed size: a placement cannot fail for want of memory.
#[derive(Drop)]
pub struct LoadedCarriageway<'a> {
    pub slices: usize,
    pub lane: usize,
    pub lanes: LaneSet,
    pub kind: LoadKind,
    pub factors: Factors,
    pub areas: &'a [u64],
    pub tandems: &'a [Tandem],
    // what T and A count for, by the owner's number
    pub tandem_weights: [u64; 5],
    pub uniform_weights: [u64; 5],
    // the area of all slices before each
    pub sums: [u64; 301],
    ghost few: { slices ≤ 300 },
    ghost wide: { 1 ≤ lane },
    ghost narrow: { lane ≤ 60 },
    ghost fits: { (lanes.others + count_ones lanes.numbered) * lane ≤ slices },
    ghost areas_low: { (j : ℕ) → j < slices → slice_index areas.now j ≤ most_area },
    ghost tandems_long: { slices ≤ length tandems.now },
    ghost tandems_low: { (j : ℕ) → j < slices → (slice_index_or tandems.now j no_tandem).t ≤ most_top },
    ghost tandem_factors_low: { (p : Owner) → tandem_factor factors p ≤ 200 },
    ghost uniform_factors_low: { (p : Owner) → uniform_factor factors p ≤ 200 },
    ghost tandem_weighed: { (p : Owner) → slice_index_or tandem_weights (number_of p) 0 ≡ tandem_weight kind factors p },
    ghost uniform_weighed: { (p : Owner) → slice_index_or uniform_weights (number_of p) 0 ≡ uniform_weight kind factors p },
    ghost summed: { (i : ℕ) → i ≤ slices → slice_index sums i ≡ total i (λ j. slice_index areas.now j) },
}
