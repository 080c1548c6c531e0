// Opposite: the ordinates negated, which serves least effects.
ghost use Rattle.surface.specs.Shape.{opposite};
ghost use Rattle.surface.specs.Turns.{opposite_laws};

use crate::Surface;
use crate::fault::SurfaceFault;
use crate::turned::{Turn, Turned};

// Each ordinate has the other sign.
pub struct Negated;

// A surface with every ordinate negated.
pub type Opposite<S> = Turned<S, Negated>;

impl Turn for Negated {
    ghost turned = { opposite };

    ghost laws = { opposite_laws };

    // The same line in `sides`: no default can promise it of every way of turning.
    fn place<S: Surface>(below: &S, k: usize) -> Result<u32, SurfaceFault> {
        below.place(k)
    }

    fn ordinate<S: Surface>(below: &S, j: usize, k: usize) -> Result<i32, SurfaceFault> {
        below.ordinate(j, k).map(|v| -v)
    }
}
