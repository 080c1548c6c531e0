// A surface over another one, turned in any way.
ghost use Rattle.std.specs.Prelude.{◌≡◌, ◌-◌, ◌<◌};
ghost use Rattle.surface.specs.Shape.{Shape, Lawful};
ghost use Rattle.surface.specs.Asked.{Asked};
ghost use Rattle.surface.specs.Turns.{TurnLaws};

use crate::Surface;
use crate::fault::SurfaceFault;
use std::marker::PhantomData;

// A way of turning. It answers for the turned surface by what it asks of the one below.
pub trait Turn {
    // The shape that the turned surface has.
    ghost turned: { Shape → Shape };

    // As many slices and stations as below, and what is turned stays lawful.
    ghost laws: { TurnLaws turned };

    // The place of station k of the turned surface, in mm.
    fn place<S: Surface>(below: &S, k: usize) -> Result<u32, SurfaceFault>
        ensures { Asked result (k < (S.Surface.shape below.now).stations) ((turned (S.Surface.shape below.now)).place k) };

    // The ordinate of slice j at station k of the turned surface: two numbers, as the question of every surface takes them.
    fn ordinate<S: Surface>(below: &S, j: usize, k: usize) -> Result<i32, SurfaceFault>
        ensures { Asked result ((j < (S.Surface.shape below.now).slices) × (k < (S.Surface.shape below.now).stations)) ((turned (S.Surface.shape below.now)).ordinate j k) };
}

// Which of so many items stands at place i, once their order is reversed.
pub(crate) fn reversed(count: usize, i: usize) -> Result<usize, SurfaceFault>
    ensures { Asked result (i < count) (count - 1 - i) }
{
    if i >= count {
        return Err(SurfaceFault::Absent);
    }
    Ok(count - 1 - i)
}

// The surface below, turned.
#[derive(Drop)]
pub struct Turned<S, T> {
    below: S,
    turn: PhantomData<T>,
}

impl<S: Surface, T: Turn> Turned<S, T> {
    pub fn new(below: S) -> Self
        ensures { result.below ≡ below }
    {
        Turned {
            below,
            turn: PhantomData,
        }
    }
}

impl<S: Surface, T: Turn> Surface for Turned<S, T> {
    ghost shape = { λ s. T.turned (S.Surface.shape s.below) };

    ghost lawful = { λ s. T.laws.lawful (S.Surface.shape s.below) (S.Surface.lawful s.below) };

    fn slices(&self) -> usize {
        self.below.slices()
    }

    fn stations(&self) -> usize {
        self.below.stations()
    }

    fn place(&self, k: usize) -> Result<u32, SurfaceFault> {
        T::place(&self.below, k)
    }

    fn ordinate(&self, j: usize, k: usize) -> Result<i32, SurfaceFault> {
        T::ordinate(&self.below, j, k)
    }
}
