// Runs the placement on parts made by hand and on a level deck, and prints what wins.
#![tactic(auto)]

ghost use Rattle.std.specs.Prelude.{◌<◌, ◌≤◌, length};

use crate::deck::placed_on_deck;
use crate::hand_made::Row;
use crate::trial::Trial;
use crate::tried::Tried;
use model::owners::Owner;
use placement::lanes::LaneSet;
use std::io;
use worths::Kerbed;

mod deck;
mod hand_made;
mod source;
mod trial;
mod tried;

const fn row(remaining: u64, lane1: u64, lane2: u64, lane3: u64, other: u64) -> Row {
    Row {
        remaining,
        lane1,
        lane2,
        lane3,
        other,
    }
}

fn show_owners(rt: &HostRuntime, owners: &[u8]) -> io::Result<()> {
    for owner in owners {
        print!(rt; " {owner}")?;
    }
    println!(rt; "")
}

// The winner by one worth. The owners past the rows stay 9.
fn try_by<W: Tried + Copy>(
    rt: &HostRuntime,
    trial: &Trial<'_>,
    bests: &mut [Option<W>],
) -> io::Result<()> {
    let mut owners = [9; 22];
    let title = trial.title;
    let name = W::NAME;
    match trial.winner(bests, &mut owners) {
        None => println!(rt; "{title}, {name}: no room"),
        Some(worth) => {
            print!(rt; "{title}, {name}: ")?;
            worth.show(rt)?;
            print!(rt; " by")?;
            show_owners(rt, &owners)
        }
    }
}

fn try_both(rt: &HostRuntime, trials: &[Trial<'_>]) -> io::Result<()> {
    let mut figures: [Option<u64>; 504] = [None; 504];
    let mut drawings: [Option<Kerbed>; 504] = [None; 504];
    for trial in trials {
        try_by(rt, trial, &mut figures)?;
        try_by(rt, trial, &mut drawings)?;
    }
    Ok(())
}

// A set of lanes 1 to 3, and so many others.
fn lanes(numbered: u8, others: u8) -> LaneSet
    requires low { numbered < 8 }
    requires few { others < 3 }
{
    LaneSet { numbered, others }
}

fn equal_worths(rt: &HostRuntime) -> io::Result<()> {
    let crossed = [
        row(0, 5, 9, 0, 0),
        row(0, 0, 0, 0, 0),
        row(0, 10, 1, 0, 0),
        row(0, 0, 0, 0, 0),
    ];
    let starts = [row(0, 7, 0, 0, 0); 5];
    let orders = [row(0, 4, 4, 0, 0); 4];
    let unnumbered = [row(0, 0, 0, 4, 4); 4];
    let trials = [
        Trial::new("lane 2 left of lane 1", &crossed, lanes(3, 0)),
        Trial::new("one lane, all starts equal", &starts, lanes(1, 0)),
        Trial::new("two lanes, both orders equal", &orders, lanes(3, 0)),
        Trial::new(
            "lane 3 and another, both orders equal",
            &unnumbered,
            lanes(4, 1),
        ),
    ];
    try_both(rt, &trials)
}

fn remaining_slices(rt: &HostRuntime) -> io::Result<()> {
    let rows = [
        row(8, 3, 0, 0, 0),
        row(1, 3, 0, 0, 0),
        row(1, 9, 0, 0, 0),
        row(8, 3, 0, 0, 0),
        row(8, 3, 0, 0, 0),
    ];
    let trials = [
        Trial::new("remaining slices worth more", &rows, lanes(1, 0)),
        Trial::new("no lanes", &rows, lanes(0, 0)),
        Trial::new("three lanes on five slices", &rows, lanes(7, 0)),
    ];
    try_both(rt, &trials)
}

fn five_lanes(rt: &HostRuntime) -> io::Result<()> {
    let rows = [
        row(2, 31, 22, 13, 9),
        row(5, 28, 25, 11, 12),
        row(1, 35, 21, 19, 7),
        row(4, 30, 29, 14, 11),
        row(3, 27, 24, 16, 10),
        row(6, 33, 20, 12, 13),
        row(2, 36, 26, 15, 8),
        row(7, 29, 23, 18, 9),
        row(1, 32, 28, 10, 14),
        row(3, 34, 27, 17, 6),
        row(5, 26, 19, 13, 12),
        row(4, 25, 18, 11, 5),
    ];
    let trials = [
        Trial::new("five lanes", &rows, lanes(7, 2)),
        Trial::new("lanes 2 and 3 and another", &rows, lanes(6, 1)),
    ];
    try_both(rt, &trials)
}

// The first slice that an owner has.
fn first_of(owners: &[u8], owner: Owner) -> Option<usize> {
    owners.iter().position(|number| *number == u8::from(owner))
}

fn try_deck<W: Tried + Copy>(
    rt: &HostRuntime,
    width: u32,
    bests: &mut [Option<W>],
) -> io::Result<()>
    requires { 7224 ≤ length bests.old }
{
    let mut owners = [9; 300];
    let name = W::NAME;
    let Some(worth) = placed_on_deck::<W>(width, bests, &mut owners) else {
        return Ok(());
    };
    print!(rt; "width {width}, {name}: ")?;
    worth.show(rt)?;
    println!(rt;
        " with lane 1 at {:?}, lane 2 at {:?}, lane 3 at {:?}",
        first_of(&owners, Owner::Lane1),
        first_of(&owners, Owner::Lane2),
        first_of(&owners, Owner::Lane3)
    )
}

// Each worth over entries of its own, in a function of its own: one that held both lists would take the memory of both.
fn try_figure(rt: &HostRuntime, width: u32) -> io::Result<()> {
    let mut figures: [Option<u64>; 7224] = [None; 7224];
    try_deck(rt, width, &mut figures)
}

fn try_drawing(rt: &HostRuntime, width: u32) -> io::Result<()> {
    let mut drawings: [Option<Kerbed>; 7224] = [None; 7224];
    try_deck(rt, width, &mut drawings)
}

fn main(rt: HostRuntime) -> io::Result<()> {
    equal_worths(&rt)?;
    remaining_slices(&rt)?;
    five_lanes(&rt)?;
    for width in [30, 53, 54, 59, 60, 89, 90, 120, 150] {
        try_figure(&rt, width)?;
        try_drawing(&rt, width)?;
    }
    Ok(())
}
