// Side for side: the slices in reverse.
ghost use Rattle.surface.specs.Shape.{side_for_side};
ghost use Rattle.surface.specs.Turns.{side_laws};

use crate::Surface;
use crate::fault::SurfaceFault;
use crate::turned::{Turn, Turned, reversed};

// Slice j shows slice n - 1 - j of the surface below.
pub struct Sides;

// A surface turned side for side.
pub type SideForSide<S> = Turned<S, Sides>;

impl Turn for Sides {
    ghost turned = { side_for_side };

    ghost laws = { side_laws };

    // The same line in `opposite`: no default can promise it of every way of turning.
    fn place<S: Surface>(below: &S, k: usize) -> Result<u32, SurfaceFault> {
        below.place(k)
    }

    fn ordinate<S: Surface>(below: &S, j: usize, k: usize) -> Result<i32, SurfaceFault> {
        below.ordinate(reversed(below.slices(), j)?, k)
    }
}
