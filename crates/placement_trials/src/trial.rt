// One placement of lanes two slices wide over rows written by hand.

use crate::hand_made::{HandMade, Row};
use placement::choice::place;
use placement::lanes::LaneSet;
use worths::Worth;

const LANE: usize = 2;

// Rows with the lanes to place over them.
#[derive(Clone, Copy)]
pub(crate) struct Trial<'a> {
    pub title: &'a str,
    pub rows: &'a [Row],
    pub lanes: LaneSet,
}

impl<'a> Trial<'a> {
    pub(crate) fn new(title: &'a str, rows: &'a [Row], lanes: LaneSet) -> Trial<'a> {
        Trial { title, rows, lanes }
    }

    // Owners are numbers, and those past the rows stay as they are.
    // What the winner over at most 20 rows is worth, with the owners of its slices; nothing where the lanes do not fit or a list is too short.
    pub(crate) fn winner<W: Worth + Copy>(
        &self,
        bests: &mut [Option<W>],
        owners: &mut [u8],
    ) -> Option<W> {
        let slices = self.rows.len();
        if slices > 20
            || slices > owners.len()
            || 24 * (slices + 1) > bests.len()
            || self.lanes.count() * LANE > slices
        {
            return None;
        }
        let parts = HandMade {
            lane: LANE,
            rows: self.rows,
        };
        Some(place(&parts, bests, owners, self.lanes))
    }
}
