// The two worths that are tried, and how each is printed.

ghost use Rattle.std.specs.Prelude.{◌+◌, ◌*◌, ◌≤◌, length};

use loaded::loads::LoadedCarriageway;
use loaded::rated::{place_drawing, place_figure};
use std::io;
use worths::{Kerbed, Worth};

// A worth that the trials place lanes by: two instances, of two public functions. Owners and lists are as those functions take them.
pub(crate) trait Tried: Worth {
    // What is placed by it.
    const NAME: &'static str;

    // The placement by this worth alone.
    fn placed(loads: &LoadedCarriageway, bests: &mut [Option<Self>], owners: &mut [u8]) -> Self
        requires long { 24 * (loads.now.slices + 1) ≤ length bests.old }
        requires room { loads.now.slices ≤ length owners.old };

    // Prints the worth without a line end.
    fn show(self, rt: &HostRuntime) -> io::Result<()>;
}

impl Tried for u64 {
    const NAME: &'static str = "figure";

    fn placed(loads: &LoadedCarriageway, bests: &mut [Option<u64>], owners: &mut [u8]) -> u64 {
        place_figure(loads, bests, owners)
    }

    fn show(self, rt: &HostRuntime) -> io::Result<()> {
        print!(rt; "{self}")
    }
}

impl Tried for Kerbed {
    const NAME: &'static str = "drawing";

    fn placed(
        loads: &LoadedCarriageway,
        bests: &mut [Option<Kerbed>],
        owners: &mut [u8],
    ) -> Kerbed {
        place_drawing(loads, bests, owners)
    }

    fn show(self, rt: &HostRuntime) -> io::Result<()> {
        let Kerbed { effect, kerb } = self;
        print!(rt; "{effect} and {kerb}")
    }
}
