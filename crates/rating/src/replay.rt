// A whole list of calls, made one after another on a job that is opened for them.
ghost use Rattle.std.specs.Prelude.{◌≡◌, true, MatchResult};
ghost use Rattle.card.specs.Bounds.{kerbs_fit};
ghost use Rattle.card.specs.Steps.{step};
ghost use Rattle.statement.specs.Runs.{Told, Replayed, duty_of, duty_told, fault_in};
ghost use Rattle.rating.specs.Made.{fault_beside};
ghost use Rattle.rating.specs.Plain.{plain_answer};

use crate::asking::{Desk, ENTRIES, ask};
use crate::duty::SignDuty;
use crate::job::Job;
use card::answers::Answer;
use card::calls::Call;
use card::fault::JobFault;
use model::lanes::Carriageway;
use surface::Surface;
use worths::Kerbed;

// The lists that a run lends, with entries for figures and for drawings.
#[derive(Drop)]
struct Lists {
    desk: Desk,
    figures: [Option<u64>; ENTRIES],
    drawings: [Option<Kerbed>; ENTRIES],
}

impl Lists {
    fn clear() -> Lists {
        Lists {
            desk: Desk::clear(),
            figures: [None; ENTRIES],
            drawings: [None; ENTRIES],
        }
    }
}

fn set_answer(r: Result<(), JobFault>) -> Answer
    ensures { result ≡ plain_answer (fault_in r) }
{
    match r {
        Ok(()) => Answer::Done,
        Err(fault) => Answer::Refused(fault),
    }
}

// A duty that was made for a call is spent with it.
fn spent(r: Result<(), (SignDuty, JobFault)>) -> Answer
    ensures { result ≡ plain_answer (fault_beside r) }
{
    match r {
        Ok(()) => Answer::Done,
        Err((duty, fault)) => {
            let SignDuty {
                number: _,
                serial: _,
            } = duty;
            Answer::Refused(fault)
        }
    }
}

// A duty that was handed out is told by its number and serial; while it is open, the job can hand it out again.
fn handed(r: Result<SignDuty, JobFault>) -> Answer
    ensures { MatchResult r (λ d. result ≡ Answer.Handed d.number d.serial) (λ e. result ≡ Answer.Refused e) }
{
    match r {
        Ok(duty) => {
            let SignDuty { number, serial } = duty;
            Answer::Handed { number, serial }
        }
        Err(fault) => Answer::Refused(fault),
    }
}

// Makes one call through its method. A call is data, which a script writes and the card judges, so it is matched here.
fn make<S: Surface>(job: &mut Job<S>, call: Call, lists: &mut Lists) -> Answer
    ensures told { kerbs_fit (S.Surface.shape job.old.surface).slices job.old.card.kerbs ≡ true → Told (S.Surface.shape job.old.surface) job.old.card call result }
    ensures steps { job.new.card ≡ step job.old.card call }
    ensures surface { job.new.surface ≡ job.old.surface }
{
    match call {
        Call::Kerbs(kerbs) => set_answer(job.kerbs(kerbs)),
        Call::Factors(factors) => set_answer(job.factors(factors)),
        Call::Reduce(factors) => handed(job.reduce(factors)),
        Call::Posted { number, serial } => spent(job.posted(SignDuty { number, serial })),
        Call::Withdraw { number, serial } => spent(job.withdraw(SignDuty { number, serial })),
        Call::Figure { kind, lengths } => ask(
            job,
            kind,
            lengths,
            &mut lists.desk,
            &mut lists.figures,
        ),
        Call::Drawing { kind, lengths } => ask(
            job,
            kind,
            lengths,
            &mut lists.desk,
            &mut lists.drawings,
        ),
    }
}

// The duty that the job holds open.
fn open_duty<S: Surface>(job: &Job<S>) -> Option<SignDuty>
    ensures { duty_told (λ d. d.number) (λ d. d.serial) result ≡ duty_of job.now.card }
{
    if job.card.serial == 0 {
        return None;
    }
    Some(SignDuty {
        number: job.card.number,
        serial: job.card.serial,
    })
}

// Opens a job over the surface and makes every call of the list, with an answer to each; what is handed out at the end is the duty that is still open.
pub fn replay<S: Surface + Drop>(
    surface: S,
    number: u32,
    kerbs: Carriageway,
    calls: &[Call],
    answers: &mut [Answer],
) -> Result<Option<SignDuty>, JobFault>
    ensures { Replayed (λ d. d.number) (λ d. d.serial) (S.Surface.shape surface) number kerbs calls.now answers.old answers.new result }
{
    if answers.len() < calls.len() {
        return Err(JobFault::Short);
    }
    let mut job = Job::open(number, surface, kerbs)?;
    let mut lists = Lists::clear();
    for (i, call) in calls.iter().enumerate() {
        answers[i] = make(&mut job, *call, &mut lists);
    }
    Ok(open_duty(&job))
}
