// A tandem with one axle at a station, and where its other axle stands.

ghost use Rattle.std.specs.Prelude.{◌≡◌, MatchOption};
ghost use Rattle.loads.specs.Axles.{Fits, other_place};

// From the rear axle to the second one, in mm.
const AXLES_APART: u32 = 1200;

#[derive(Clone, Copy, PartialEq, Eq, Debug)]
pub(crate) enum Axle {
    Rear,
    Second,
}

// The place of the other axle, and the segment that holds it.
#[derive(Clone, Copy, PartialEq, Eq, Debug)]
pub(crate) struct Other {
    pub place: u32,
    pub segment: usize,
}

// The other axle of the tandem with its rear axle at a station, and of the one with its second axle there; none where
// that tandem does not stand on the deck.
#[derive(Clone, Copy, PartialEq, Eq, Debug, Default)]
pub(crate) struct Others {
    pub ahead: Option<Other>,
    pub behind: Option<Other>,
}

impl Axle {
    // The place of the other axle where this one is at `place`, on a deck that ends at `end`.
    pub(crate) fn other(self, place: u32, end: u32) -> Option<u32>
        ensures { MatchOption result (Fits self place end → ⊥) (λ z. Fits self place end × (z ≡ other_place self place)) }
    {
        match self {
            Axle::Rear => place.checked_add(AXLES_APART).filter(|z| *z <= end),
            Axle::Second => place.checked_sub(AXLES_APART),
        }
    }
}
