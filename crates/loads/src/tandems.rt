// T and its place on a line of values, by trying every place with an axle at a station.

ghost use Rattle.std.specs.Prelude.{◌≡◌, ◌<◌, Some, slice_index};
ghost use Rattle.lines.specs.Lines.{IsTandem};
ghost use Rattle.loads.specs.declared.others.Other.{Other as TheOther};
ghost use Rattle.loads.specs.Axles.{Under};
ghost use Rattle.loads.specs.Grids.{line_on};
ghost use Rattle.loads.specs.Peaks.{AxlesAt, Good, Tried, Best};

use crate::line::Line;
use crate::others::Other;
use crate::peaks::Peak;
use crate::sums::better;
use model::tandems::Tandem;

// T counts so many for a sum of 1.
const SCALE: u64 = 10_000;

impl Line<'_> {
    // Tries the tandem with an axle at station i and its other axle at `other`, if there is one.
    fn tried(self, i: usize, other: Option<Other>, best: Option<Peak>) -> Option<Peak>
        requires there { i < self.grid.now.stations.count }
        requires apart { (o : TheOther) → other ≡ Some o → AxlesAt (slice_index self.grid.now.stations.places i) o.place }
        requires under { (o : TheOther) → other ≡ Some o → Under self.grid.now.stations.count self.grid.now.stations.places o.segment o.place }
        requires good { Good (line_on self.grid.now self.values.now) best }
        ensures { Tried (line_on self.entry.grid.now self.entry.values.now) best (slice_index self.entry.grid.now.stations.places i) other result }
    {
        let Some(other) = other else {
            return best;
        };
        let new = self.peak(i, other);
        Some(better(best, new))
    }

    // The greatest sum, at the first place that attains it.
    fn greatest(self) -> Option<Peak>
        ensures { Best (line_on self.entry.grid.now self.entry.values.now) result }
    {
        let mut best = None;
        let count = self.grid.stations.count;
        for (i, others) in self.grid.others[..count].iter().enumerate() {
            best = self.tried(i, others.ahead, best);
            best = self.tried(i, others.behind, best);
        }
        best
    }

    // T and the place of the tandem.
    pub(crate) fn tandem(self) -> Tandem
        ensures { IsTandem (line_on self.entry.grid.now self.entry.values.now) result.t result.place }
    {
        match self.greatest() {
            Some(p) if p.sum > 0 => Tandem {
                t: (SCALE * p.sum.unsigned_abs()).div_ceil(u64::from(p.span)),
                place: Some(p.place),
            },
            _ => Tandem::none(),
        }
    }
}
