// Making a loaded carriageway: each owner's weights and the areas before each slice are computed once.

ghost use Rattle.std.specs.Prelude.{◌≡◌, ℕ, ◌+◌, ◌-◌, ◌*◌, ◌<◌, ◌≤◌, length, count_ones, slice_index};
ghost use Rattle.algebra.specs.Sums.{total};
ghost use Rattle.model.specs.Lanes.{breadth, lanes_in, lane_slices};
ghost use Rattle.model.specs.Owners.{number_of};
ghost use Rattle.model.specs.declared.owners.Owner.{Owner as AnOwner};
ghost use Rattle.placing.specs.Placing.{lane_set};
ghost use Rattle.placing.specs.Loaded.{loads_over, Low, most_area};
ghost use Rattle.loaded.specs.Lent.{loads_of};

use crate::loads::LoadedCarriageway;
use model::lanes::Carriageway;
use model::owners::Owner;
use model::tandems::Tandem;
use model::weights::{Factors, LoadKind};
use placement::lanes::LaneSet;
use placement::parts::OWNERS;

// The area of all slices before each, in an array of fixed size, since a placement takes no memory.
fn running_sums(areas: &[u64], slices: usize) -> [u64; 301]
    requires few { slices ≤ 300 }
    requires long { slices ≤ length areas.now }
    requires low { (j : ℕ) → j < slices → slice_index areas.now j ≤ most_area }
    ensures { (i : ℕ) → i ≤ slices → slice_index result i ≡ total i (λ j. slice_index areas.now j) }
{
    let mut sums = [0; 301];
    for (i, area) in areas[0..slices].iter().enumerate() {
        sums[i + 1] = sums[i] + *area;
    }
    sums
}

// The lanes of a carriageway, which fit between its kerbs.
fn lanes_of(carriageway: Carriageway) -> LaneSet
    requires wide { 30 ≤ carriageway.width }
    requires narrow { carriageway.width ≤ 150 }
    ensures numbered { result.numbered ≡ lane_set (lanes_in carriageway.width) }
    ensures others { result.others ≡ lanes_in carriageway.width - 3 }
    ensures fit { (result.others + count_ones result.numbered) * lane_slices carriageway.width ≤ breadth carriageway }
{
    LaneSet::up_to(carriageway.lane_count())
}

impl<'a> LoadedCarriageway<'a> {
    // A carriageway with the areas of its slices and the tandems of its lane starts.
    pub fn new(
        carriageway: Carriageway,
        kind: LoadKind,
        factors: Factors,
        areas: &'a [u64],
        tandems: &'a [Tandem],
    ) -> LoadedCarriageway<'a>
        requires wide { 30 ≤ carriageway.width }
        requires low { Low (loads_over carriageway kind factors areas.now tandems.now) }
        requires areas_long { breadth carriageway ≤ length areas.now }
        requires tandems_long { breadth carriageway ≤ length tandems.now }
        ensures loads { loads_of result ≡ loads_over carriageway kind factors areas.now tandems.now }
        ensures numbered { result.lanes.numbered ≡ lane_set (lanes_in carriageway.width) }
        ensures others { result.lanes.others ≡ lanes_in carriageway.width - 3 }
    {
        let slices = carriageway.slices();
        LoadedCarriageway {
            slices,
            lane: carriageway.lane_slices(),
            lanes: lanes_of(carriageway),
            kind,
            factors,
            areas,
            tandems,
            tandem_weights: OWNERS.map(|owner| factors.tandem_weight(kind, owner)),
            uniform_weights: OWNERS.map(|owner| factors.uniform_weight(kind, owner)),
            sums: running_sums(areas, slices),
        }
    }
}
