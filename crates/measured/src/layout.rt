// The slices of a deck and its paths, and the ordinate of a slice from those at the paths.
ghost use Rattle.std.specs.Prelude.{◌≡◌, ℕ, ◌-◌, ◌<◌, ◌≤◌, pos, ◌≤ℤ◌, slice_index, slice_index_or, unsigned_abs};
ghost use Rattle.std.specs.Int.{int_div_euclid};
ghost use Rattle.measured.specs.Judged.{Begun, header_judged};
ghost use Rattle.measured.specs.Laid.{Laid};
ghost use Rattle.measured.specs.Spread.{before, between, spread};
ghost use Rattle.surface.specs.Verdict.{Granted};

use crate::checks::check_header;
use crate::padding::padded;
use surface::fault::SurfaceFault;

// The slices of a deck, and those at which ordinates are measured: the first `count` of `paths`.
// A draft is plain numbers and takes no memory, so the paths stand in eight fixed places.
#[derive(Clone, Copy)]
pub struct Layout {
    pub slices: usize,
    pub count: usize,
    pub paths: [usize; 8],
    ghost ok: { Laid slices count paths },
}

// sum / by, rounded towards minus infinity, as ordinates are.
fn floor(sum: i64, by: i64) -> i64
    requires { pos 1 ≤ℤ by }
    ensures { result ≡ int_div_euclid sum by }
{
    sum.div_euclid(by)
}

// (v(q - j) + u(j - p)) / (q - p), rounded towards minus infinity.
fn mix(p: usize, v: i32, q: usize, u: i32, j: usize) -> i32
    requires inside { (p ≤ j) × ((j ≤ q) × ((p < q) × (q ≤ 300))) }
    requires within { (unsigned_abs v ≤ 100000) × (unsigned_abs u ≤ 100000) }
    ensures { result ≡ between p v q u j }
{
    let left = i64::from(v) * (q - j) as i64;
    let right = i64::from(u) * (j - p) as i64;
    floor(left + right, (q - p) as i64) as i32
}

impl Layout {
    // A deck and its paths, or the first fault of them.
    pub fn new(slices: i32, paths: &[i32]) -> Result<Layout, SurfaceFault>
        ensures { Granted (header_judged slices paths.now) result (λ l. Begun slices paths.now l.slices l.count l.paths 0) }
    {
        check_header(slices, paths)?;
        Ok(Layout {
            slices: slices as usize,
            count: paths.len(),
            paths: padded(paths).map(|p| p.unsigned_abs() as usize),
        })
    }

    // How many paths lie before slice j.
    fn paths_before(&self, j: usize) -> usize
        ensures value { result ≡ before self.now.count self.now.paths j }
        ensures few { result ≤ self.now.count }
        ensures left { 0 < result → slice_index self.now.paths (result - 1) < j }
        ensures right { result < self.now.count → j ≤ slice_index self.now.paths result }
    {
        self.paths[..self.count].partition_point(|p| *p < j)
    }

    // The ordinate of slice j, from those at the paths.
    pub fn at_slice(&self, ordinates: &[i32; 8], j: usize) -> i32
        requires { (i : ℕ) → i < self.now.count → unsigned_abs (slice_index_or ordinates.now i (pos 0)) ≤ 100000 }
        ensures { result ≡ spread self.now.count self.now.paths ordinates.now j }
    {
        let i = self.paths_before(j);
        if i == 0 {
            ordinates[0]
        } else if i == self.count {
            ordinates[i - 1]
        } else {
            mix(
                self.paths[i - 1],
                ordinates[i - 1],
                self.paths[i],
                ordinates[i],
                j,
            )
        }
    }
}
