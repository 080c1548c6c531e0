// A level deck: every slice has one area and every lane start one tandem.

ghost use Rattle.std.specs.Prelude.{◌≤◌, length};

use crate::tried::Tried;
use loaded::loads::LoadedCarriageway;
use model::lanes::Carriageway;
use model::tandems::Tandem;
use model::weights::{Factors, LoadKind};

// The line of influence rises over 10 m from 0 to 5,000 and falls back.
const AREA: u64 = 100_000_000;

const TANDEM: Tandem = Tandem {
    t: 376_000_000,
    place: Some(8_800),
};

// What the winner on a carriageway so many decimetres wide is worth, with the owners of its slices, by number.
// The entries are lent: an array of any worth is not known to fit.
pub(crate) fn placed_on_deck<W: Tried + Copy>(
    width: u32,
    bests: &mut [Option<W>],
    owners: &mut [u8; 300],
) -> Option<W>
    requires { 7224 ≤ length bests.old }
{
    if width < 30 || width > 150 {
        return None;
    }
    let areas = [AREA; 300];
    let tandems = [TANDEM; 300];
    let loads = LoadedCarriageway::new(
        Carriageway { first: 0, width },
        LoadKind::Characteristic,
        Factors::ONES,
        &areas,
        &tandems,
    );
    Some(W::placed(&loads, bests, owners))
}
