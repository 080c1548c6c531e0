// What a job answers.

use crate::fault::JobFault;
use model::tandems::Tandem;

// What a figure or a drawing answers: the winner's rounded effect, and whether a duty is open, as the rules answer it.
#[derive(Clone, Copy, PartialEq, Eq, Debug)]
pub struct Rating {
    pub figure: u64,
    pub duty: bool,
}

// What a figure or a drawing shows of its winner: the owner of each slice, by number, and the tandem of each lane start.
// Of fixed size: answers are copied, and a run cannot fail for want of memory.
#[derive(Clone, Copy, PartialEq, Eq, Debug)]
pub struct Layout {
    pub owners: [u8; 300],
    pub tandems: [Tandem; 300],
}

#[derive(Clone, Copy, PartialEq, Eq, Debug)]
pub enum Answer {
    Refused(JobFault),
    Done,
    // A reduction that was taken, with its duty by number and serial, as the rules tell one.
    Handed { number: u32, serial: u32 },
    Rated { rating: Rating, layout: Layout },
}
