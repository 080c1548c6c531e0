// The best placement of a loaded carriageway's lanes, by any kind of worth, and by each of the two.

ghost use Rattle.std.specs.Prelude.{◌≡◌, ◌+◌, ◌*◌, ◌≤◌, length, take, drop};
ghost use Rattle.placing.specs.Placing.{Filled};
ghost use Rattle.placing.specs.Loaded.{loaded, Rated, SameLoads};
ghost use Rattle.worths.specs.Kinds.{effect_kind, kerbed_kind, kerbed as kerbed_worth};
ghost use Rattle.loaded.specs.Lent.{loads_of};
ghost use Rattle.loaded.specs.Figures.{SameFigure};

use crate::loads::LoadedCarriageway;
use placement::choice::place;
use worths::{Kerbed, Worth};

// Fills the entries, writes the winner's owners, and answers what the winner is worth. Owners are numbers, as the rules have them.
pub fn place_loads<W: Worth + Copy>(
    loads: &LoadedCarriageway,
    bests: &mut [Option<W>],
    owners: &mut [u8],
) -> W
    requires long { 24 * (loads.now.slices + 1) ≤ length bests.old }
    requires room { loads.now.slices ≤ length owners.old }
    ensures filled { Filled W.Worth.kind (loaded W.Worth.made (loads_of loads.now)) 0 bests.new }
    ensures bests_beyond { drop (24 * (loads.now.slices + 1)) bests.new ≡ drop (24 * (loads.now.slices + 1)) bests.old }
    ensures rated { Rated W.Worth.kind W.Worth.made (loads_of loads.now) loads.now.lanes.numbered loads.now.lanes.others result (take loads.now.slices owners.new) }
    ensures owners_beyond { drop loads.now.slices owners.new ≡ drop loads.now.slices owners.old }
    ensures mirrored { SameLoads W.Worth.kind W.Worth.made (loads_of loads.now) loads.now.lanes.numbered loads.now.lanes.others result }
{
    place(loads, bests, owners, loads.lanes)
}

// The placement of a figure, by the rounded effect alone: the instance in which the mirrored promise needs no premise.
pub fn place_figure(loads: &LoadedCarriageway, bests: &mut [Option<u64>], owners: &mut [u8]) -> u64
    requires long { 24 * (loads.now.slices + 1) ≤ length bests.old }
    requires room { loads.now.slices ≤ length owners.old }
    ensures filled { Filled effect_kind (loaded (λ e k. e) (loads_of loads.now)) 0 bests.new }
    ensures bests_beyond { drop (24 * (loads.now.slices + 1)) bests.new ≡ drop (24 * (loads.now.slices + 1)) bests.old }
    ensures rated { Rated effect_kind (λ e k. e) (loads_of loads.now) loads.now.lanes.numbered loads.now.lanes.others result (take loads.now.slices owners.new) }
    ensures owners_beyond { drop loads.now.slices owners.new ≡ drop loads.now.slices owners.old }
    ensures mirrored { SameFigure (loads_of loads.now) loads.now.lanes.numbered loads.now.lanes.others result }
{
    place_loads::<u64>(loads, bests, owners)
}

// The placement of a drawing, by the rounded effect and then the kerb count: the instance in the drawing's words, beside that of a figure.
pub fn place_drawing(
    loads: &LoadedCarriageway,
    bests: &mut [Option<Kerbed>],
    owners: &mut [u8],
) -> Kerbed
    requires long { 24 * (loads.now.slices + 1) ≤ length bests.old }
    requires room { loads.now.slices ≤ length owners.old }
    ensures filled { Filled kerbed_kind (loaded kerbed_worth (loads_of loads.now)) 0 bests.new }
    ensures bests_beyond { drop (24 * (loads.now.slices + 1)) bests.new ≡ drop (24 * (loads.now.slices + 1)) bests.old }
    ensures rated { Rated kerbed_kind kerbed_worth (loads_of loads.now) loads.now.lanes.numbered loads.now.lanes.others result (take loads.now.slices owners.new) }
    ensures owners_beyond { drop loads.now.slices owners.new ≡ drop loads.now.slices owners.old }
{
    place_loads::<Kerbed>(loads, bests, owners)
}
