// Why a call of a job is refused.

ghost use Rattle.std.specs.Prelude.{◌≡◌};
ghost use Rattle.card.specs.Told.{job_told};
ghost use Rattle.card.specs.declared.fault.JobFault.TheVariants.{Surface as by_surface};

use surface::fault::SurfaceFault;
use table::fault::{Layer, Report};

#[derive(Clone, Copy, PartialEq, Eq, Debug)]
pub enum JobFault {
    // What the surface refused.
    Surface(SurfaceFault),
    // A width outside 3.0 to 15.0 m, or a carriageway beyond the slices.
    Kerbs,
    // A factor out of bounds, or a reduction that reduces none.
    Factor,
    // Factors while a duty is open, or one duty too many.
    DutyOpen,
    // A duty that is not this job's open one.
    NotOpen,
    // A list that is too short.
    Short,
}

impl From<SurfaceFault> for JobFault {
    ghost from_gives = { λ f r. r ≡ by_surface f };

    fn from(fault: SurfaceFault) -> JobFault {
        JobFault::Surface(fault)
    }
}

impl From<JobFault> for Report {
    ghost from_gives = { λ fault report. report ≡ job_told fault };

    // The refusal's number, layer and place; those of the job have no place in any text.
    fn from(fault: JobFault) -> Report {
        let number = match fault {
            JobFault::Surface(f) => return Report::from(f),
            JobFault::Kerbs => 5,
            JobFault::Factor => 6,
            JobFault::DutyOpen => 7,
            JobFault::NotOpen => 8,
            JobFault::Short => 9,
        };
        Report {
            number,
            layer: Layer::Job,
            record: 0,
            field: 0,
        }
    }
}
