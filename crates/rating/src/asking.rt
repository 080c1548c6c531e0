// A figure or a drawing by the lengths of the lists to lend, and what is kept of it.
ghost use Rattle.std.specs.Prelude.{◌≡◌, ◌-◌, ◌≤◌, true, ◌++◌, length, replicate};
ghost use Rattle.card.specs.Bounds.{kerbs_fit};
ghost use Rattle.model.specs.Tandems.{no_tandem};
ghost use Rattle.figures.specs.Lent.{lengths as lengths_of};
ghost use Rattle.rating.specs.Asked.{Asked};
ghost use Rattle.rating.specs.Reach.{reached};

use crate::job::Job;
use card::answers::{Answer, Layout};
use card::calls::Lengths;
use figures::reported::Reported;
use model::lanes::Carriageway;
use model::tandems::Tandem;
use model::weights::LoadKind;
use surface::Surface;

// The most slices of a carriageway, and the entries of `bests` that they need.
const SLICES: usize = 300;

pub const ENTRIES: usize = 7224;

// Lists that are long enough for any kerbs, of fixed size: a run cannot fail for want of memory.
#[derive(Drop)]
pub struct Desk {
    pub areas: [u64; SLICES],
    pub tandems: [Tandem; SLICES],
    pub owners: [u8; SLICES],
}

impl Desk {
    // A desk with nothing on it.
    pub fn clear() -> Desk
        ensures areas { result.areas ≡ replicate 300 0 }
        ensures tandems { result.tandems ≡ replicate 300 no_tandem }
        ensures owners { result.owners ≡ replicate 300 0 }
    {
        Desk {
            areas: [0; SLICES],
            tandems: [Tandem::none(); SLICES],
            owners: [0; SLICES],
        }
    }
}

// How much of lists of these lengths is lent: owners and tandems as far as the kerbs reach, so that they show nothing of an earlier call.
fn reach(kerbs: Carriageway, lengths: Lengths) -> Lengths
    ensures { result ≡ reached kerbs lengths }
{
    let slices = kerbs.slices().min(SLICES);
    Lengths {
        areas: lengths.areas.min(SLICES),
        tandems: lengths.tandems.min(slices),
        bests: lengths.bests.min(ENTRIES),
        owners: lengths.owners.min(slices),
    }
}

// A copy of the items, with `blank` after them: the library copies, and no form of it fills the rest.
fn kept<T: Copy>(items: &[T], blank: T) -> [T; SLICES]
    requires { length items.now ≤ 300 }
    ensures { result ≡ items.now ++ replicate (300 - length items.now) blank }
{
    let mut all = [blank; SLICES];
    all[..items.len()].copy_from_slice(items);
    all
}

// The answer to a figure or a drawing over these lists: four parameters, as the rules lend them.
fn answer_over<S: Surface, W: Reported + Copy>(
    job: &Job<S>,
    kind: LoadKind,
    areas: &mut [u64],
    tandems: &mut [Tandem],
    bests: &mut [Option<W>],
    owners: &mut [u8],
) -> Answer
    requires { (length tandems.old ≤ 300) × (length owners.old ≤ 300) }
    ensures { kerbs_fit (S.Surface.shape job.now.surface).slices job.now.card.kerbs ≡ true → Asked W.Worth.kind W.Worth.made (S.Surface.shape job.now.surface) job.now.card kind (lengths_of areas.old tandems.old bests.old owners.old) result }
{
    match job.rate::<W>(kind, areas, tandems, bests, owners) {
        Ok(rating) => {
            let layout = Layout {
                owners: kept(owners, 0),
                tandems: kept(tandems, Tandem::none()),
            };
            Answer::Rated { rating, layout }
        }
        Err(fault) => Answer::Refused(fault),
    }
}

// The answer to a figure or a drawing with lists of these lengths.
pub fn ask<S: Surface, W: Reported + Copy>(
    job: &Job<S>,
    kind: LoadKind,
    lengths: Lengths,
    desk: &mut Desk,
    bests: &mut [Option<W>],
) -> Answer
    requires { 7224 ≤ length bests.old }
    ensures { kerbs_fit (S.Surface.shape job.now.surface).slices job.now.card.kerbs ≡ true → Asked W.Worth.kind W.Worth.made (S.Surface.shape job.now.surface) job.now.card kind lengths result }
{
    let lent = reach(job.card.kerbs, lengths);
    answer_over(
        job,
        kind,
        &mut desk.areas[0..lent.areas],
        &mut desk.tandems[0..lent.tandems],
        &mut bests[0..lent.bests],
        &mut desk.owners[0..lent.owners],
    )
}
