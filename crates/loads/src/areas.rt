// A of a row of ordinates.

ghost use Rattle.std.specs.Prelude.{◌≡◌, ◌-◌, ◌*◌, ◌<◌, ◌≤◌, unsigned_abs};
ghost use Rattle.algebra.specs.Frac.{ceil};
ghost use Rattle.lines.specs.Segments.{rounded};
ghost use Rattle.lines.specs.Areas.{area_to};
ghost use Rattle.loads.specs.Grids.{line_on};

use crate::line::Line;

// d times the square of c over w, rounded up.
#[tactic(auto, using(algebra::proofs::Round::div_ceil_is))]
fn peak(d: u64, c: u64, w: u64) -> u64
    requires { (d < 200000) × ((c ≤ 400000) × ((0 < w) × (w ≤ 800000))) }
    ensures { result ≡ ceil (d * (c * c)) w }
{
    (d * (c * c)).div_ceil(w)
}

// Twice the greatest area over a segment of length `d` with end ordinates `v` and `u`, rounded up.
fn segment_area(d: u32, v: i32, u: i32) -> u64
    requires { (d < 200000) × ((unsigned_abs v ≤ 400000) × (unsigned_abs u ≤ 400000)) }
    ensures { result ≡ rounded d v u }
{
    let a = u64::from(v.unsigned_abs());
    let b = u64::from(u.unsigned_abs());
    let d = u64::from(d);
    match (v >= 0, u >= 0) {
        (true, true) => d * (a + b),
        (true, false) => peak(d, a, a + b),
        (false, true) => peak(d, b, a + b),
        (false, false) => 0,
    }
}

impl Line<'_> {
    // A of a row: what its segments count for together.
    // By index, as a rule of the project asks: a segment is two neighbouring stations.
    pub(crate) fn area(self) -> u64
        ensures { result ≡ area_to (line_on self.entry.grid.now self.entry.values.now) (self.entry.grid.now.stations.count - 1) }
    {
        let places = &self.grid.stations.places;
        let mut sum = 0;
        for k in 0..self.grid.stations.count - 1 {
            sum += segment_area(
                places[k + 1] - places[k],
                self.values[k],
                self.values[k + 1],
            );
        }
        sum
    }
}
