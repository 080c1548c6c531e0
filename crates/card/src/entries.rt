// The job card: what is in force.

use model::lanes::Carriageway;
use model::weights::Factors;

#[derive(Clone, Copy, PartialEq, Eq, Debug)]
pub struct Card {
    pub number: u32,
    pub slices: usize,
    pub kerbs: Carriageway,
    pub factors: Factors,
    // The factors before the last reduction.
    pub earlier: Factors,
    // The open serial, 0 where no duty is open: a number, as a rule of the project asks of the card.
    pub serial: u32,
    // How many duties were handed out.
    pub count: u32,
}
