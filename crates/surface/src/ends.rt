// End for end: the stations in reverse.
ghost use Rattle.surface.specs.Shape.{end_for_end};
ghost use Rattle.surface.specs.Turns.{end_laws};

use crate::Surface;
use crate::fault::SurfaceFault;
use crate::turned::{Turn, Turned, reversed};

// Station k shows station m - 1 - k of the surface below, and places are measured from the last one.
pub struct Ends;

// A surface turned end for end.
pub type EndForEnd<S> = Turned<S, Ends>;

impl Turn for Ends {
    ghost turned = { end_for_end };

    ghost laws = { end_laws };

    fn place<S: Surface>(below: &S, k: usize) -> Result<u32, SurfaceFault> {
        let m = below.stations();
        let i = reversed(m, k)?;
        let from = below.place(i)?;
        let last = below.place(m - 1)?;
        Ok(last - from)
    }

    fn ordinate<S: Surface>(below: &S, j: usize, k: usize) -> Result<i32, SurfaceFault> {
        below.ordinate(j, reversed(below.stations(), k)?)
    }
}
