// The rule for the places of stations.
ghost use Rattle.std.specs.Prelude.{◌≡◌};
ghost use Rattle.surface.specs.Stations.{place_fits};

// Whether station k, after one at the place `before`, may stand at `place`.
pub fn place_fits(k: usize, before: i64, place: i32) -> bool
    ensures { result ≡ place_fits k before place }
{
    if !(0..200_000).contains(&place) {
        return false;
    }
    if k == 0 {
        place == 0
    } else {
        before < i64::from(place)
    }
}
