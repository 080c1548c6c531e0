// The entries: the best worth from each slice on, for each set of lanes still to place.

ghost use Rattle.std.specs.Prelude.{◌≡◌, ◌+◌, ◌*◌, ◌<◌, ◌≤◌, ◌∷◌, length, drop};
ghost use Rattle.placing.specs.Placing.{width, worth, Placement, Greatest, Best, Filled, Bounded};
ghost use Rattle.placing.specs.Steps.{Ready, better};

use crate::entries::{Entries, Rest};
use crate::lanes::LaneSet;
use crate::parts::{OWNERS, Parts, width_of};
use model::owners::Owner;
use worths::Worth;

// The greater of two worths, the first where they are level. No `max`: the order is the worth's own, and none is below every worth.
fn better_of<W: Worth + Copy>(a: Option<W>, b: Option<W>) -> Option<W>
    ensures { result ≡ better W.Worth.kind a b }
{
    match (a, b) {
        (None, b) => b,
        (Some(x), None) => Some(x),
        (Some(x), Some(y)) => if x.is_below(y) { Some(y) } else { Some(x) },
    }
}

impl<W: Worth + Copy, P: Parts<W>> Entries<'_, W, P> {
    // The best worth of what can follow a part of `owner` that stands first in the rest.
    fn following(&self, rest: Rest, owner: Owner) -> Option<W>
        requires ready { Ready W.Worth.kind (P.Parts.road self.now.parts.now) (24 * rest.at + 24) self.now.bests.now }
        requires inside { rest.at < (P.Parts.road self.now.parts.now).slices }
        ensures { Greatest W.Worth.kind (λ ps. Placement (P.Parts.road self.now.parts.now) rest.at rest.left.numbered rest.left.others (owner ∷ ps)) (worth W.Worth.kind (P.Parts.road self.now.parts.now) (rest.at + width (P.Parts.road self.now.parts.now).lane owner)) result }
    {
        let left = rest.left.after(owner)?;
        let width = width_of(self.parts.lane(), owner);
        if width > self.parts.slices() - rest.at {
            return None;
        }
        self.bests[left.entry(rest.at + width)]
    }

    // The best worth of the placements of the rest that begin with a part of `owner`.
    pub(crate) fn begun(&self, rest: Rest, owner: Owner) -> Option<W>
        requires ready { Ready W.Worth.kind (P.Parts.road self.now.parts.now) (24 * rest.at + 24) self.now.bests.now }
        requires inside { rest.at < (P.Parts.road self.now.parts.now).slices }
        ensures { Greatest W.Worth.kind (λ ps. Placement (P.Parts.road self.now.parts.now) rest.at rest.left.numbered rest.left.others (owner ∷ ps)) (λ ps. worth W.Worth.kind (P.Parts.road self.now.parts.now) rest.at (owner ∷ ps)) result }
    {
        let best = self.following(rest, owner)?;
        Some(self.parts.part(owner, rest.at).plus(best))
    }

    // The best worth of the placements of the rest, or none where there is no such placement.
    fn best(&self, rest: Rest) -> Option<W>
        requires ready { Ready W.Worth.kind (P.Parts.road self.now.parts.now) (24 * rest.at + 24) self.now.bests.now }
        requires inside { rest.at ≤ (P.Parts.road self.now.parts.now).slices }
        ensures { Best W.Worth.kind (P.Parts.road self.now.parts.now) rest.at rest.left.numbered rest.left.others result }
    {
        let slices = self.parts.slices();
        if rest.left.count() * self.parts.lane() > slices - rest.at {
            return None;
        }
        if rest.at == slices {
            return Some(W::zero());
        }
        let mut best = None;
        for owner in OWNERS {
            best = better_of(best, self.begun(rest, owner));
        }
        best
    }
}

// Fills each entry 24 j + 3 m + o, from the last slice to the first.
// By number, since each entry reads those after it, so that the list cannot be lent out entry by entry.
pub(crate) fn fill<W: Worth + Copy, P: Parts<W>>(parts: &P, bests: &mut [Option<W>])
    requires bounded { Bounded W.Worth.kind (P.Parts.road parts.now) }
    requires long { 24 * ((P.Parts.road parts.now).slices + 1) ≤ length bests.old }
    ensures filled { Filled W.Worth.kind (P.Parts.road parts.now) 0 bests.new }
    ensures beyond { drop (24 * ((P.Parts.road parts.now).slices + 1)) bests.new ≡ drop (24 * ((P.Parts.road parts.now).slices + 1)) bests.old }
{
    for i in (0..24 * (parts.slices() + 1)).rev() {
        let left = LaneSet {
            numbered: (i % 24 / 3) as u8,
            others: (i % 3) as u8,
        };
        let entries = Entries { parts, bests };
        let best = entries.best(Rest { at: i / 24, left });
        bests[i] = best;
    }
}
