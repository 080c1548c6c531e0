// Rates the trial line at every width, with equal, one-sided and crossing edge factors.
#![tactic(auto)]

use crate::rows::{Asked, Trial, print_row};
use edge::edge::Edge;
use edge::station::Station;
use model::lanes::Carriageway;
use model::weights::LoadKind;
use rating::job::Job;
use surface::Surface;

mod rows;

// The trial line: 20 m long, with the ordinate 5,000 in the middle.
static LINE: [Station; 3] = [
    Station {
        place: 0,
        ordinate: 0,
    },
    Station {
        place: 10000,
        ordinate: 5000,
    },
    Station {
        place: 20000,
        ordinate: 0,
    },
];

// Figures of both kinds.
const FIGURES: [(Asked, LoadKind); 2] = [
    (Asked::Figure, LoadKind::Characteristic),
    (Asked::Figure, LoadKind::Frequent),
];

// Figures and drawings of both kinds.
const FIGURES_AND_DRAWINGS: [(Asked, LoadKind); 4] = [
    (Asked::Figure, LoadKind::Characteristic),
    (Asked::Figure, LoadKind::Frequent),
    (Asked::Drawing, LoadKind::Characteristic),
    (Asked::Drawing, LoadKind::Frequent),
];

// The rows of a carriageway over a surface with these edge factors.
fn try_kerbs<S: Surface + Drop>(
    rt: &HostRuntime,
    trial: Trial,
    surface: S,
    calls: &[(Asked, LoadKind)],
) -> anyhow::Result<()> {
    let Ok(job) = Job::open(0, surface, trial.kerbs) else {
        return Ok(println!(rt; "refused")?);
    };
    for (asked, kind) in calls {
        print_row(rt, trial, &job, *asked, *kind)?;
    }
    Ok(())
}

// The rows of a carriageway over the trial line.
fn try_line(rt: &HostRuntime, trial: Trial, calls: &[(Asked, LoadKind)]) -> anyhow::Result<()> {
    let mut surface = Edge::level();
    match surface.make(300, trial.f, trial.g, &LINE) {
        Ok(()) => try_kerbs(rt, trial, surface, calls),
        Err(_) => Ok(println!(rt; "refused")?),
    }
}

// The rows of one width: at the left edge figure and drawing, in the middle figure.
fn try_width(rt: &HostRuntime, f: i32, g: i32, width: u32) -> anyhow::Result<()> {
    let kerbs = Carriageway { first: 0, width };
    try_line(rt, Trial { f, g, kerbs }, &FIGURES_AND_DRAWINGS)?;
    let first = 150u32.saturating_sub(width);
    if first == 0 {
        return Ok(());
    }
    let kerbs = Carriageway { first, width };
    try_line(rt, Trial { f, g, kerbs }, &FIGURES)
}

fn try_widths(rt: &HostRuntime, f: i32, g: i32) -> anyhow::Result<()> {
    for width in 30..=150 {
        try_width(rt, f, g, width)?;
    }
    Ok(())
}

fn main(rt: HostRuntime) -> anyhow::Result<()> {
    println!(rt;
        "f,g,a,w,lanes,lane_slices,call,kind,figure,lane1,lane2,lane3,others,place1,place2,place3"
    )?;
    for (f, g) in [(1000, 1000), (0, 1000), (-500, 1500)] {
        try_widths(&rt, f, g)?;
    }
    Ok(())
}
