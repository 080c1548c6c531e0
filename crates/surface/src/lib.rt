// Influence surfaces: what one means, the four questions that every one answers, and the turned ones.
#![tactic(auto)]

ghost use Rattle.std.specs.Prelude.{◌≡◌, ℕ, ◌<◌};
ghost use Rattle.surface.specs.Shape.{Shape, Lawful};
ghost use Rattle.surface.specs.Asked.{Asked};

use crate::fault::SurfaceFault;

pub mod each;
pub mod ends;
pub mod fault;
pub mod laws;
pub mod opposite;
pub mod questions;
pub mod sides;
pub mod stations;
pub mod turned;

// An influence surface, by its meaning. Slices, stations, places and ordinates are all that is asked of one.
pub trait Surface {
    // The slices, the stations with their places, and the ordinates.
    ghost shape: { Self → Shape };

    // Every surface is shown to be lawful.
    ghost lawful: { (s : Self) → Lawful (shape s) };

    // How many slices the deck has.
    fn slices(&self) -> usize
        ensures { result ≡ (shape self.now).slices };

    // How many stations the surface has.
    fn stations(&self) -> usize
        ensures { result ≡ (shape self.now).stations };

    // The place of station k in mm.
    fn place(&self, k: usize) -> Result<u32, SurfaceFault>
        ensures { Asked result (k < (shape self.now).stations) ((shape self.now).place k) };

    // The ordinate of slice j at station k.
    fn ordinate(&self, j: usize, k: usize) -> Result<i32, SurfaceFault>
        ensures { Asked result ((j < (shape self.now).slices) × (k < (shape self.now).stations)) ((shape self.now).ordinate j k) };
}
