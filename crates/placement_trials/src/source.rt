// Rows written by hand as a source of parts.

ghost use Rattle.std.specs.Prelude.{◌≡◌};
ghost use Rattle.placement_trials.specs.HandMade.{written, hand_made};

use crate::hand_made::{HandMade, Row};
use loaded::parts::kerb_count;
use model::owners::Owner;
use placement::parts::Parts;
use worths::Worth;

// As a factor is found by owner in `model`: the rows are numbers of their own.
impl Row {
    fn written(self, owner: Owner) -> u64
        ensures { result ≡ written self owner }
    {
        match owner {
            Owner::Remaining => self.remaining,
            Owner::Lane1 => self.lane1,
            Owner::Lane2 => self.lane2,
            Owner::Lane3 => self.lane3,
            Owner::Other => self.other,
        }
    }
}

impl<W: Worth> Parts<W> for HandMade<'_> {
    ghost road = { λ s. hand_made W.Worth.made s.lane s.rows.now };

    fn slices(&self) -> usize {
        self.rows.len()
    }

    fn lane(&self) -> usize {
        self.lane
    }

    fn part(&self, owner: Owner, at: usize) -> W {
        W::of(
            self.rows[at].written(owner).min(1_000_000),
            kerb_count(owner, at),
        )
    }
}
