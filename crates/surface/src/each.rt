// The first fault of many items.
ghost use Rattle.std.specs.Prelude.{◌≡◌, ℕ, ◌<◌};
ghost use Rattle.surface.specs.Verdict.{Verdict, each_judged};

use crate::fault::SurfaceFault;

// Checks items 0 to count - 1 one after the other, up to the first that is refused.
// By number, since an item may be checked against the one before.
pub fn check_each<F: Fn(usize) -> Result<(), SurfaceFault>>(
    count: usize,
    check: F,
) -> Result<(), SurfaceFault>
    requires { (k : ℕ) → k < count → F.pre check k }
    ensures { (f : ℕ → Verdict) → ((k : ℕ) (r : Verdict) → k < count → F.post check k r → r ≡ f k) → result ≡ each_judged f 0 count }
{
    for k in 0..count {
        check(k)?;
    }
    Ok(())
}
