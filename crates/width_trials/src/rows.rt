// The row of one call.
use card::answers::{Layout, Rating};
use card::fault::JobFault;
use model::lanes::Carriageway;
use model::tandems::Tandem;
use model::weights::LoadKind;
use rating::job::Job;
use report::cells::{spaced_cell, three_cells};
use report::lanes::shown_lane;
use report::others::other_starts;
use surface::Surface;

// What is asked of a job.
#[derive(Clone, Copy)]
pub(crate) enum Asked {
    Figure,
    Drawing,
}

// The factors of the left and the right edge in thousandths, and the carriageway.
#[derive(Clone, Copy)]
pub(crate) struct Trial {
    pub f: i32,
    pub g: i32,
    pub kerbs: Carriageway,
}

// The columns before the figure.
fn print_asked(rt: &HostRuntime, trial: Trial, asked: Asked, kind: LoadKind) -> anyhow::Result<()> {
    let Trial { f, g, kerbs } = trial;
    let a = kerbs.first;
    let w = kerbs.width;
    let lanes = kerbs.lane_count();
    let lane = kerbs.lane_slices();
    let call = match asked {
        Asked::Figure => "figure",
        Asked::Drawing => "drawing",
    };
    print!(rt; "{f},{g},{a},{w},{lanes},{lane},{call},{kind}")?;
    Ok(())
}

// The columns from the figure on.
fn print_shown(rt: &HostRuntime, figure: u64, layout: &Layout) -> anyhow::Result<()> {
    let first = shown_lane(&layout.owners, &layout.tandems, 1);
    let second = shown_lane(&layout.owners, &layout.tandems, 2);
    let third = shown_lane(&layout.owners, &layout.tandems, 3);
    let lanes = three_cells(rt.alloc(), first.start, second.start, third.start)?;
    let places = three_cells(rt.alloc(), first.place, second.place, third.place)?;
    let starts = other_starts(rt.alloc(), &layout.owners)?;
    let others = spaced_cell(rt.alloc(), starts.as_slice())?;
    println!(rt; ",{figure},{lanes},{others},{places}")?;
    Ok(())
}

// The job's figure, over entries of its own, as many as any carriageway asks for.
fn ask_figure<S: Surface>(
    job: &Job<S>,
    kind: LoadKind,
    areas: &mut [u64],
    tandems: &mut [Tandem],
    owners: &mut [u8],
) -> Result<Rating, JobFault> {
    let mut bests = [None; 7224];
    job.figure(kind, areas, tandems, &mut bests, owners)
}

// The job's drawing, over entries of its own: a function for each call, since one that held both lists would take the
// memory of both.
fn ask_drawing<S: Surface>(
    job: &Job<S>,
    kind: LoadKind,
    areas: &mut [u64],
    tandems: &mut [Tandem],
    owners: &mut [u8],
) -> Result<Rating, JobFault> {
    let mut bests = [None; 7224];
    job.drawing(kind, areas, tandems, &mut bests, owners)
}

// A row with what the job answers, over lists of the size that any carriageway asks for.
pub(crate) fn print_row<S: Surface>(
    rt: &HostRuntime,
    trial: Trial,
    job: &Job<S>,
    asked: Asked,
    kind: LoadKind,
) -> anyhow::Result<()> {
    let mut areas = [0; 300];
    let mut tandems = [Tandem::none(); 300];
    let mut owners = [0; 300];
    print_asked(rt, trial, asked, kind)?;
    let answer = match asked {
        Asked::Figure => ask_figure(job, kind, &mut areas, &mut tandems, &mut owners),
        Asked::Drawing => ask_drawing(job, kind, &mut areas, &mut tandems, &mut owners),
    };
    match answer {
        Ok(rating) => print_shown(rt, rating.figure, &Layout { owners, tandems }),
        Err(_) => Ok(println!(rt; ",refused")?),
    }
}
