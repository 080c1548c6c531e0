// The extent of a surface: its counts, its last place, and its least and greatest ordinate.
ghost use Rattle.std.specs.Prelude.{◌≡◌, ℕ, ◌+◌, ◌<◌, ◌≤◌, ℤ};
ghost use Rattle.survey.specs.Extents.{Both, Extends, Spans, Station, On};

use surface::Surface;
use surface::questions::{ordinate_of, place_of};

// The least and the greatest of some ordinates.
#[derive(Clone, Copy, PartialEq, Eq, Debug)]
pub struct Range {
    pub least: i32,
    pub greatest: i32,
}

// How far a surface reaches.
#[derive(Clone, Copy, PartialEq, Eq, Debug)]
pub struct Extent {
    pub slices: usize,
    pub stations: usize,
    // In mm.
    pub last_place: u32,
    pub ordinates: Range,
}

impl Range {
    // The range of one ordinate.
    fn of(v: i32) -> Range
        ensures { (result.least ≡ v) × (result.greatest ≡ v) }
    {
        Range {
            least: v,
            greatest: v,
        }
    }

    // The range of this one's ordinates and another's.
    fn with(self, other: Range) -> Range
        ensures { Both self other result }
    {
        Range {
            least: self.least.min(other.least),
            greatest: self.greatest.max(other.greatest),
        }
    }
}

// The range of the ordinates of one slice.
// By number: a surface is asked and holds no list.
fn slice_range<S: Surface>(surface: &S, j: usize) -> Range
    requires { j < (S.Surface.shape surface.now).slices }
    ensures { Spans (Station (S.Surface.shape surface.now).stations) ((S.Surface.shape surface.now).ordinate j) result }
{
    let mut range = Range::of(ordinate_of(surface, j, 0));
    for k in 1..surface.stations() {
        range = range.with(Range::of(ordinate_of(surface, j, k)));
    }
    range
}

// The range of all ordinates.
// By number: a surface is asked and holds no list.
fn whole_range<S: Surface>(surface: &S) -> Range
    ensures { Spans (On (S.Surface.shape surface.now).slices (S.Surface.shape surface.now).stations) (λ x. (S.Surface.shape surface.now).ordinate x.slice x.station) result }
{
    let mut range = slice_range(surface, 0);
    for j in 1..surface.slices() {
        range = range.with(slice_range(surface, j));
    }
    range
}

// The extent of any surface.
pub fn extent_of<S: Surface>(surface: &S) -> Extent
    ensures { Extends (S.Surface.shape surface.now) result }
{
    let slices = surface.slices();
    let stations = surface.stations();
    Extent {
        slices,
        stations,
        last_place: place_of(surface, stations - 1),
        ordinates: whole_range(surface),
    }
}
