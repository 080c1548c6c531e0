// The bounds on kerbs and factors.
ghost use Rattle.std.specs.Prelude.{◌≡◌};
ghost use Rattle.card.specs.Steps.{long_enough};
ghost use Rattle.card.specs.Bounds.{kerbs_fit, in_range, in_bounds, some_reduced};

use model::lanes::Carriageway;
use model::weights::Factors;

// Whether the carriageway is 3.0 to 15.0 m wide and lies on a deck of so many slices.
pub fn kerbs_fit(slices: usize, kerbs: Carriageway) -> bool
    ensures { result ≡ kerbs_fit slices kerbs }
{
    kerbs.width >= 30
        && kerbs.width <= 150
        && kerbs.first as u64 + 2 * kerbs.width as u64 <= slices as u64
}

fn in_range(lo: u32, hi: u32, x: u32) -> bool
    ensures { result ≡ in_range lo hi x }
{
    lo <= x && x <= hi
}

// Whether the factors lie in their ranges, where a tandem in lane 1 may fall to `tandem` and the uniform loads of lanes from 2 up to `uniform`.
pub fn in_bounds(tandem: u32, uniform: u32, f: Factors) -> bool
    ensures { result ≡ in_bounds tandem uniform f }
{
    in_range(tandem, 200, f.tandem1)
        & (in_range(0, 200, f.tandem2)
            & (in_range(0, 200, f.tandem3)
                & (in_range(40, 200, f.uniform1)
                    & (in_range(uniform, 200, f.uniform2)
                        & (in_range(uniform, 200, f.uniform3)
                            & (in_range(uniform, 200, f.others)
                                & in_range(0, 200, f.remaining)))))))
}

// Whether a factor is below the bound that holds without a reduction.
pub fn some_reduced(f: Factors) -> bool
    ensures { result ≡ some_reduced f }
{
    (f.tandem1 < 80) | ((f.uniform2 < 100) | ((f.uniform3 < 100) | (f.others < 100)))
}

// Whether lists of these lengths reach as far as the carriageway asks.
pub fn long_enough(
    kerbs: Carriageway,
    areas: usize,
    tandems: usize,
    bests: usize,
    owners: usize,
) -> bool
    ensures { result ≡ long_enough kerbs (record { areas = areas; tandems = tandems; bests = bests; owners = owners }) }
{
    let slices = kerbs.slices();
    slices <= areas && slices <= tandems && 24 * (slices + 1) <= bests && slices <= owners
}
