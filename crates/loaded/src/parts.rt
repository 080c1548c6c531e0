// The parts of a loaded carriageway: what each counts, in time that does not grow with its slices.

ghost use Rattle.std.specs.Prelude.{◌≡◌, ◌+◌, ◌*◌, ◌≤◌};
ghost use Rattle.model.specs.Weights.{tandem_weight, uniform_weight};
ghost use Rattle.placing.specs.Placing.{width};
ghost use Rattle.placing.specs.Loaded.{effect_of, kerb_of, loaded, area_over};
ghost use Rattle.loaded.specs.Lent.{loads_of};

use crate::loads::LoadedCarriageway;
use model::owners::Owner;
use placement::parts::{Parts, width_of};
use worths::Worth;

// 300 less a lane's first slice, counted from the carriageway's first; a remaining slice counts nothing.
pub fn kerb_count(owner: Owner, at: usize) -> u64
    requires { at ≤ 300 }
    ensures { result ≡ kerb_of owner at }
{
    match owner {
        Owner::Remaining => 0,
        _ => 300 - at as u64,
    }
}

impl LoadedCarriageway<'_> {
    // What the tandem of an owner's part that begins at slice `at` counts, and what the uniform load on its slices does.
    fn shares(&self, owner: Owner, at: usize) -> (u64, u64)
        requires { at + width self.now.lane owner ≤ self.now.slices }
        ensures tandem { result.0 ≡ tandem_weight self.now.kind self.now.factors owner * (loads_of self.now).top at }
        ensures tandem_low { result.0 ≤ 4800000000000000 }
        ensures uniform { result.1 ≡ uniform_weight self.now.kind self.now.factors owner * area_over (loads_of self.now) at (width self.now.lane owner) }
        ensures uniform_low { result.1 ≤ 43200000000000000 }
    {
        let number = usize::from(u8::from(owner));
        let area = self.sums[at + width_of(self.lane, owner)] - self.sums[at];
        let tandem = self.tandem_weights[number] * self.tandems[at].t;
        let uniform = self.uniform_weights[number] * area;
        (tandem, uniform)
    }

    // The rounded effect of an owner's part that begins at slice `at`.
    pub fn effect(&self, owner: Owner, at: usize) -> u64
        requires { at + width self.now.lane owner ≤ self.now.slices }
        ensures { result ≡ effect_of (loads_of self.now) owner at }
    {
        let (tandem, uniform) = self.shares(owner, at);
        tandem + uniform
    }
}

impl<W: Worth> Parts<W> for LoadedCarriageway<'_> {
    ghost road = { λ s. loaded W.Worth.made (loads_of s) };

    fn slices(&self) -> usize {
        self.slices
    }

    fn lane(&self) -> usize {
        self.lane
    }

    fn part(&self, owner: Owner, at: usize) -> W {
        W::of(self.effect(owner, at), kerb_count(owner, at))
    }
}
