// The chosen placement: of the greatest worth, and of equals the one whose owners come first from the left.

ghost use Rattle.std.specs.Prelude.{◌≡◌, ◌+◌, ◌*◌, ◌<◌, ◌≤◌, List, ◌++◌, length, take, drop, replicate, Some, count_ones};
ghost use Rattle.model.specs.Owners.{number_of};
ghost use Rattle.model.specs.declared.owners.Owner.{Owner as AnOwner};
ghost use Rattle.placing.specs.Placing.{Placement, Best, Filled, Bounded, Won};
ghost use Rattle.placing.specs.Steps.{Ready, Leads};
ghost use Rattle.placing.specs.Mirrors.{SameMirrored};

use crate::bests::fill;
use crate::entries::{Entries, Rest};
use crate::lanes::LaneSet;
use crate::parts::{OWNERS, Parts, width_of};
use model::owners::Owner;
use worths::Worth;

impl<W: Worth + Copy, P: Parts<W>> Entries<'_, W, P> {
    // The best worth of the rest, where there is a placement.
    fn known_best(&self, rest: Rest) -> W
        requires ready { Ready W.Worth.kind (P.Parts.road self.now.parts.now) 0 self.now.bests.now }
        requires inside { rest.at ≤ (P.Parts.road self.now.parts.now).slices }
        requires some { (ps : List AnOwner) × Placement (P.Parts.road self.now.parts.now) rest.at rest.left.numbered rest.left.others ps }
        ensures { Best W.Worth.kind (P.Parts.road self.now.parts.now) rest.at rest.left.numbered rest.left.others (Some result) }
    {
        let entry = self.bests[rest.left.entry(rest.at)];
        let Some(best) = entry else { unreachable() };
        best
    }

    // The first owner that a placement of the greatest worth begins with.
    fn first_owner(&self, rest: Rest) -> Owner
        requires ready { Ready W.Worth.kind (P.Parts.road self.now.parts.now) 0 self.now.bests.now }
        requires inside { rest.at < (P.Parts.road self.now.parts.now).slices }
        requires some { (ps : List AnOwner) × Placement (P.Parts.road self.now.parts.now) rest.at rest.left.numbered rest.left.others ps }
        ensures { Leads W.Worth.kind (P.Parts.road self.now.parts.now) rest.at rest.left.numbered rest.left.others result }
    {
        let best = self.known_best(rest);
        for owner in OWNERS {
            if let Some(worth) = self.begun(rest, owner) {
                if !worth.is_below(best) {
                    return owner;
                }
            }
        }
        unreachable()
    }
}

// Writes an owner's number over a part's slices.
fn mark(owners: &mut [u8], at: usize, width: usize, owner: Owner)
    requires { at + width ≤ length owners.old }
    ensures front { take (at + width) owners.new ≡ take at owners.old ++ replicate width (number_of owner) }
    ensures back { drop (at + width) owners.new ≡ drop (at + width) owners.old }
{
    owners[at..at + width].fill(owner.into());
}

// Writes the owner of each slice as the entries choose it, and answers what that placement of `lanes` is worth.
// From part to part, since each is as wide as what is chosen. Owners are numbers, as a rule of the project asks of that list.
fn choose<W: Worth + Copy, P: Parts<W>>(
    entries: &Entries<'_, W, P>,
    owners: &mut [u8],
    lanes: LaneSet,
) -> W
    requires ready { Ready W.Worth.kind (P.Parts.road entries.now.parts.now) 0 entries.now.bests.now }
    requires room { (P.Parts.road entries.now.parts.now).slices ≤ length owners.old }
    requires some { (ps : List AnOwner) × Placement (P.Parts.road entries.now.parts.now) 0 lanes.numbered lanes.others ps }
    ensures best { Best W.Worth.kind (P.Parts.road entries.now.parts.now) 0 lanes.numbered lanes.others (Some result) }
    ensures won { Won W.Worth.kind (P.Parts.road entries.now.parts.now) lanes.numbered lanes.others result (take (P.Parts.road entries.now.parts.now).slices owners.new) }
    ensures beyond { drop (P.Parts.road entries.now.parts.now).slices owners.new ≡ drop (P.Parts.road entries.now.parts.now).slices owners.old }
{
    let slices = entries.parts.slices();
    let mut rest = Rest { at: 0, left: lanes };
    let best = entries.known_best(rest);
    while rest.at < slices {
        let owner = entries.first_owner(rest);
        let Some(left) = rest.left.after(owner) else {
            unreachable()
        };
        let width = width_of(entries.parts.lane(), owner);
        mark(owners, rest.at, width, owner);
        rest = Rest {
            at: rest.at + width,
            left,
        };
    }
    best
}

// Fills the entries, writes the owners of the chosen placement of `lanes`, by number, and answers its worth.
pub fn place<W: Worth + Copy, P: Parts<W>>(
    parts: &P,
    bests: &mut [Option<W>],
    owners: &mut [u8],
    lanes: LaneSet,
) -> W
    requires bounded { Bounded W.Worth.kind (P.Parts.road parts.now) }
    requires long { 24 * ((P.Parts.road parts.now).slices + 1) ≤ length bests.old }
    requires room { (P.Parts.road parts.now).slices ≤ length owners.old }
    requires fits { (lanes.others + count_ones lanes.numbered) * (P.Parts.road parts.now).lane ≤ (P.Parts.road parts.now).slices }
    ensures filled { Filled W.Worth.kind (P.Parts.road parts.now) 0 bests.new }
    ensures bests_beyond { drop (24 * ((P.Parts.road parts.now).slices + 1)) bests.new ≡ drop (24 * ((P.Parts.road parts.now).slices + 1)) bests.old }
    ensures best { Best W.Worth.kind (P.Parts.road parts.now) 0 lanes.numbered lanes.others (Some result) }
    ensures won { Won W.Worth.kind (P.Parts.road parts.now) lanes.numbered lanes.others result (take (P.Parts.road parts.now).slices owners.new) }
    ensures owners_beyond { drop (P.Parts.road parts.now).slices owners.new ≡ drop (P.Parts.road parts.now).slices owners.old }
    ensures mirrored { SameMirrored W.Worth.kind (P.Parts.road parts.now) lanes.numbered lanes.others (Some result) }
{
    fill(parts, bests);
    let entries = Entries { parts, bests };
    choose(&entries, owners, lanes)
}
