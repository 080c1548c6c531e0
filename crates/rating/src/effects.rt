// The calls that rate: figure and drawing.
ghost use Rattle.std.specs.Prelude.{◌≡◌, None, MatchResult};
ghost use Rattle.card.specs.Bounds.{kerbs_fit};
ghost use Rattle.card.specs.Steps.{cause, duty_open, long_enough, unless};
ghost use Rattle.card.specs.declared.calls.Call.TheVariants.{Figure, Drawing};
ghost use Rattle.card.specs.declared.fault.JobFault.TheVariants.{Kerbs as BadKerbs, Short};
ghost use Rattle.statement.specs.Figures.{Listed};
ghost use Rattle.statement.specs.Runs.{fault_in, in_force};
ghost use Rattle.worths.specs.Kinds.{effect_kind, kerbed_kind, kerbed};
ghost use Rattle.figures.specs.Lent.{lent, lengths};

use crate::bounds::{kerbs_fit, long_enough};
use crate::job::Job;
use card::answers::Rating;
use card::fault::JobFault;
use figures::figures::rate;
use figures::reported::Reported;
use model::tandems::Tandem;
use model::weights::{Factors, LoadKind};
use surface::Surface;
use worths::Kerbed;

impl<S: Surface> Job<S> {
    // The factors that a figure or a drawing is taken under.
    fn factors_in_force(&self) -> Factors
        ensures { result ≡ self.now.card.factors }
    {
        self.card.factors
    }

    // The greatest rounded effect under what is in force, with the winner that comes first by any kind of worth.
    pub(crate) fn rate<W: Reported + Copy>(
        &self,
        kind: LoadKind,
        areas: &mut [u64],
        tandems: &mut [Tandem],
        bests: &mut [Option<W>],
        owners: &mut [u8],
    ) -> Result<Rating, JobFault>
        ensures judged { fault_in result ≡ unless (kerbs_fit (S.Surface.shape self.now.surface).slices self.now.card.kerbs) BadKerbs (unless (long_enough self.now.card.kerbs (lengths areas.old tandems.old bests.old owners.old)) Short None) }
        ensures told { MatchResult result (λ a. (a.duty ≡ duty_open self.now.card) × Listed W.Worth.kind W.Worth.made (in_force (S.Surface.shape self.now.surface) self.now.card kind) a.figure (lent areas.old tandems.old bests.old owners.old) (lent areas.new tandems.new bests.new owners.new)) (λ _. lent areas.new tandems.new bests.new owners.new ≡ lent areas.old tandems.old bests.old owners.old) }
    {
        let kerbs = self.card.kerbs;
        if !kerbs_fit(self.surface.slices(), kerbs) {
            return Err(JobFault::Kerbs);
        }
        if !long_enough(kerbs, areas.len(), tandems.len(), bests.len(), owners.len()) {
            return Err(JobFault::Short);
        }
        let figure = rate::<S, W>(
            &self.surface,
            kerbs,
            self.factors_in_force(),
            kind,
            areas,
            tandems,
            bests,
            owners,
        );
        Ok(Rating {
            figure,
            duty: self.card.serial != 0,
        })
    }

    // The greatest rounded effect under what is in force, with the winner that comes first among equals.
    // Figure and drawing are methods of their own, as a rule of the project asks of a job's calls.
    pub fn figure(
        &self,
        kind: LoadKind,
        areas: &mut [u64],
        tandems: &mut [Tandem],
        bests: &mut [Option<u64>],
        owners: &mut [u8],
    ) -> Result<Rating, JobFault>
        ensures judged { fault_in result ≡ unless (kerbs_fit (S.Surface.shape self.now.surface).slices self.now.card.kerbs) BadKerbs (cause self.now.card (Figure kind (lengths areas.old tandems.old bests.old owners.old))) }
        ensures told { MatchResult result (λ a. (a.duty ≡ duty_open self.now.card) × Listed effect_kind (λ e k. e) (in_force (S.Surface.shape self.now.surface) self.now.card kind) a.figure (lent areas.old tandems.old bests.old owners.old) (lent areas.new tandems.new bests.new owners.new)) (λ _. lent areas.new tandems.new bests.new owners.new ≡ lent areas.old tandems.old bests.old owners.old) }
    {
        self.rate::<u64>(kind, areas, tandems, bests, owners)
    }

    // The same, where among equal effects the lanes nearest the left kerb win.
    pub fn drawing(
        &self,
        kind: LoadKind,
        areas: &mut [u64],
        tandems: &mut [Tandem],
        bests: &mut [Option<Kerbed>],
        owners: &mut [u8],
    ) -> Result<Rating, JobFault>
        ensures judged { fault_in result ≡ unless (kerbs_fit (S.Surface.shape self.now.surface).slices self.now.card.kerbs) BadKerbs (cause self.now.card (Drawing kind (lengths areas.old tandems.old bests.old owners.old))) }
        ensures told { MatchResult result (λ a. (a.duty ≡ duty_open self.now.card) × Listed kerbed_kind kerbed (in_force (S.Surface.shape self.now.surface) self.now.card kind) a.figure (lent areas.old tandems.old bests.old owners.old) (lent areas.new tandems.new bests.new owners.new)) (λ _. lent areas.new tandems.new bests.new owners.new ≡ lent areas.old tandems.old bests.old owners.old) }
    {
        self.rate::<Kerbed>(kind, areas, tandems, bests, owners)
    }
}
