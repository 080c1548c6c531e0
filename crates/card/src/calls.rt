// What a job is asked.

use model::lanes::Carriageway;
use model::weights::{Factors, LoadKind};

// How long the four lists are that a figure or a drawing is lent.
#[derive(Clone, Copy, PartialEq, Eq, Debug)]
pub struct Lengths {
    pub areas: usize,
    pub tandems: usize,
    pub bests: usize,
    pub owners: usize,
}

// Lists long enough for any carriageway.
pub const AMPLE: Lengths = Lengths {
    areas: 300,
    tandems: 300,
    bests: 7224,
    owners: 300,
};

// A call by its arguments: duties by job number and serial, lists by their lengths, as the rules feed the card.
#[derive(Clone, Copy, PartialEq, Eq, Debug)]
pub enum Call {
    Kerbs(Carriageway),
    Factors(Factors),
    Reduce(Factors),
    Posted { number: u32, serial: u32 },
    Withdraw { number: u32, serial: u32 },
    Figure { kind: LoadKind, lengths: Lengths },
    Drawing { kind: LoadKind, lengths: Lengths },
}
