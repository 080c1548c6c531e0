// The best placement over areas and tandems that are listed.

ghost use Rattle.std.specs.Prelude.{◌≡◌, ◌+◌, ◌-◌, ◌*◌, ◌≤◌, length, take, drop};
ghost use Rattle.model.specs.Lanes.{breadth, lanes_in};
ghost use Rattle.placing.specs.Placing.{Filled, lane_set};
ghost use Rattle.placing.specs.Loaded.{loads_over, loaded, Low, Rated};

use loaded::loads::LoadedCarriageway;
use loaded::rated::place_loads;
use model::lanes::Carriageway;
use model::tandems::Tandem;
use model::weights::{Factors, LoadKind};
use worths::Worth;

// Fills the entries, writes the winner's owners, and answers what the winner is worth. Owners are numbers, as the rules have them.
pub fn place_listed<'a, W: Worth + Copy>(
    kerbs: Carriageway,
    kind: LoadKind,
    factors: Factors,
    areas: &'a [u64],
    tandems: &'a [Tandem],
    bests: &mut [Option<W>],
    owners: &mut [u8],
) -> W
    requires wide { 30 ≤ kerbs.width }
    requires low { Low (loads_over kerbs kind factors areas.now tandems.now) }
    requires areas_long { breadth kerbs ≤ length areas.now }
    requires tandems_long { breadth kerbs ≤ length tandems.now }
    requires bests_long { 24 * (breadth kerbs + 1) ≤ length bests.old }
    requires owners_long { breadth kerbs ≤ length owners.old }
    ensures filled { Filled W.Worth.kind (loaded W.Worth.made (loads_over kerbs kind factors areas.now tandems.now)) 0 bests.new }
    ensures bests_beyond { drop (24 * (breadth kerbs + 1)) bests.new ≡ drop (24 * (breadth kerbs + 1)) bests.old }
    ensures rated { Rated W.Worth.kind W.Worth.made (loads_over kerbs kind factors areas.now tandems.now) (lane_set (lanes_in kerbs.width)) (lanes_in kerbs.width - 3) result (take (breadth kerbs) owners.new) }
    ensures owners_beyond { drop (breadth kerbs) owners.new ≡ drop (breadth kerbs) owners.old }
{
    let loads = LoadedCarriageway::new(kerbs, kind, factors, areas, tandems);
    place_loads::<W>(&loads, bests, owners)
}
