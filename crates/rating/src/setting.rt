// The calls that set what is in force: open, kerbs, factors, reduce, posted and withdraw.
ghost use Rattle.std.specs.Prelude.{◌≡◌, IfOk, IfErr};
ghost use Rattle.card.specs.Steps.{opening, open_cause, is_open};
ghost use Rattle.card.specs.declared.calls.Call.TheVariants.{Kerbs as SetKerbs, Factors as SetFactors, Reduce, Posted, Withdraw};
ghost use Rattle.statement.specs.Runs.{fault_in};
ghost use Rattle.rating.specs.Made.{Made, fault_beside};

use crate::bounds::{in_bounds, kerbs_fit, some_reduced};
use crate::duty::SignDuty;
use crate::job::Job;
use card::entries::Card;
use card::fault::JobFault;
use model::lanes::Carriageway;
use model::weights::Factors;
use surface::Surface;

// The most duties that a job hands out.
const MOST_DUTIES: u32 = 65_535;

// Each call says that the surface stays as it was: that is about the job before and after, which no field can hold.
impl<S: Surface> Job<S> {
    // Opens a job of this number over a surface, between these kerbs and with every factor 1.00.
    pub fn open(number: u32, surface: S, kerbs: Carriageway) -> Result<Job<S>, JobFault>
    where
        S: Drop,
        ensures judged { fault_in result ≡ open_cause (S.Surface.shape surface).slices kerbs }
        ensures opened { IfOk result (λ j. (j.card ≡ opening number (S.Surface.shape surface).slices kerbs) × (j.surface ≡ surface)) }
    {
        let slices = surface.slices();
        if !kerbs_fit(slices, kerbs) {
            return Err(JobFault::Kerbs);
        }
        let card = Card {
            number,
            slices,
            kerbs,
            factors: Factors::ONES,
            earlier: Factors::ONES,
            serial: 0,
            count: 0,
        };
        Ok(Job { surface, card })
    }

    // Moves the kerbs.
    pub fn kerbs(&mut self, kerbs: Carriageway) -> Result<(), JobFault>
        ensures made { Made self.old.card self.new.card (SetKerbs kerbs) (fault_in result) }
        ensures surface { self.new.surface ≡ self.old.surface }
    {
        if !kerbs_fit(self.card.slices, kerbs) {
            return Err(JobFault::Kerbs);
        }
        self.card.kerbs = kerbs;
        Ok(())
    }

    // Sets the national factors.
    pub fn factors(&mut self, factors: Factors) -> Result<(), JobFault>
        ensures made { Made self.old.card self.new.card (SetFactors factors) (fault_in result) }
        ensures surface { self.new.surface ≡ self.old.surface }
    {
        if self.card.serial != 0 {
            return Err(JobFault::DutyOpen);
        }
        if !in_bounds(80, 100, factors) {
            return Err(JobFault::Factor);
        }
        self.card.factors = factors;
        Ok(())
    }

    // Reduces factors for a bridge with weight signs, and hands out the duty to post them.
    pub fn reduce(&mut self, factors: Factors) -> Result<SignDuty, JobFault>
        ensures made { Made self.old.card self.new.card (Reduce factors) (fault_in result) }
        ensures handed { IfOk result (λ d. (d.number ≡ self.new.card.number) × (d.serial ≡ self.new.card.serial)) }
        ensures surface { self.new.surface ≡ self.old.surface }
    {
        if self.card.serial != 0 || self.card.count >= MOST_DUTIES {
            return Err(JobFault::DutyOpen);
        }
        if !(in_bounds(40, 40, factors) & some_reduced(factors)) {
            return Err(JobFault::Factor);
        }
        let serial = self.card.count + 1;
        self.card.earlier = self.card.factors;
        self.card.factors = factors;
        self.card.count = serial;
        self.card.serial = serial;
        Ok(SignDuty {
            number: self.card.number,
            serial,
        })
    }

    // Whether this duty is the open one. By both numbers: the duty itself must be spent, and this only looks at it.
    fn is_open(&self, number: u32, serial: u32) -> bool
        ensures { result ≡ is_open self.now.card number serial }
    {
        self.card.serial != 0 && number == self.card.number && serial == self.card.serial
    }

    // Ends the duty: the signs are posted.
    pub fn posted(&mut self, duty: SignDuty) -> Result<(), (SignDuty, JobFault)>
        ensures made { Made self.old.card self.new.card (Posted duty.number duty.serial) (fault_beside result) }
        ensures back { IfErr result (λ e. e.0 ≡ duty) }
        ensures surface { self.new.surface ≡ self.old.surface }
    {
        if !self.is_open(duty.number, duty.serial) {
            return Err((duty, JobFault::NotOpen));
        }
        let SignDuty {
            number: _,
            serial: _,
        } = duty;
        self.card.serial = 0;
        Ok(())
    }

    // Ends the duty and brings the earlier factors back.
    pub fn withdraw(&mut self, duty: SignDuty) -> Result<(), (SignDuty, JobFault)>
        ensures made { Made self.old.card self.new.card (Withdraw duty.number duty.serial) (fault_beside result) }
        ensures back { IfErr result (λ e. e.0 ≡ duty) }
        ensures surface { self.new.surface ≡ self.old.surface }
    {
        self.posted(duty)?;
        self.card.factors = self.card.earlier;
        Ok(())
    }
}
