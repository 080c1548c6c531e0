// The entries as far as they are filled, and what is still to place.

use crate::lanes::LaneSet;
use crate::parts::Parts;
use worths::Worth;

// The lanes that are left to place, from slice `at` on.
#[derive(Clone, Copy)]
pub(crate) struct Rest {
    pub at: usize,
    pub left: LaneSet,
}

// The entries, over the parts that they are made of.
// No ghost field says how far they are filled: that an entry is the best names a placement, which is data to the checker.
#[derive(Drop)]
pub(crate) struct Entries<'a, W: Worth, P: Parts<W>> {
    pub parts: &'a P,
    pub bests: &'a [Option<W>],
}
