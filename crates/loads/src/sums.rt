// The sums under both axles, and which of two is the better.

ghost use Rattle.std.specs.Prelude.{◌≡◌, ◌<◌, true, false, min, Some, MatchOption, slice_index};
ghost use Rattle.loads.specs.declared.peaks.Peak.{Peak as ThePeak};
ghost use Rattle.loads.specs.Axles.{Under};
ghost use Rattle.loads.specs.Grids.{line_on};
ghost use Rattle.loads.specs.Peaks.{Ranged, Paired, Over, Better};

use crate::line::Line;
use crate::others::Other;
use crate::peaks::Peak;

impl Line<'_> {
    // The sum of the tandem with an axle at station i and its other axle at `other`.
    pub(crate) fn peak(self, i: usize, other: Other) -> Peak
        requires there { i < self.grid.now.stations.count }
        requires under { Under self.grid.now.stations.count self.grid.now.stations.places other.segment other.place }
        ensures sum { Paired (line_on self.entry.grid.now self.entry.values.now) i other.place result }
        ensures place { result.place ≡ min (slice_index self.entry.grid.now.stations.places i) other.place }
    {
        let places = &self.grid.stations.places;
        let k = other.segment;
        let span = places[k + 1] - places[k];
        let here = i64::from(self.values[i]) * i64::from(span);
        let left = i64::from(self.values[k]) * i64::from(places[k + 1] - other.place);
        let right = i64::from(self.values[k + 1]) * i64::from(other.place - places[k]);
        Peak {
            sum: here + (left + right),
            span,
            place: places[i].min(other.place),
        }
    }
}

// Whether `new` has the greater sum, or the same at a smaller place.
// No Ord on Peak: 3 over 6 and 1 over 2 are level and not equal.
#[tactic(auto, using(crate::proofs::Choosing::over_then, crate::proofs::Choosing::over_level, crate::proofs::Choosing::over_else))]
fn over(new: Peak, old: Peak) -> bool
    requires { (Ranged new) × (Ranged old) }
    ensures { elim result [ true ↦ Over new old | false ↦ Over old new ] }
{
    let a = new.sum * i64::from(old.span);
    let b = old.sum * i64::from(new.span);
    a > b || (a == b && new.place < old.place)
}

// The better of the best so far, if there is one, and a new one.
pub(crate) fn better(best: Option<Peak>, new: Peak) -> Peak
    requires new { Ranged new }
    requires best { (p : ThePeak) → best ≡ Some p → Ranged p }
    ensures { MatchOption best (result ≡ new) (λ old. Better old new result) }
{
    best.map_or(new, |old| if over(new, old) { new } else { old })
}
