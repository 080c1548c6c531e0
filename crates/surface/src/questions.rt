// The questions of a surface, at stations and slices that are there.
ghost use Rattle.std.specs.Prelude.{◌≡◌, ◌<◌, ◌≤◌, unsigned_abs};

use crate::Surface;

// The place of a station that is there.
pub fn place_of<S: Surface>(surface: &S, k: usize) -> u32
    requires { k < (S.Surface.shape surface.now).stations }
    ensures { result ≡ (S.Surface.shape surface.now).place k }
{
    surface.place(k).unwrap()
}

// The ordinate of a slice and a station that are there.
pub fn ordinate_of<S: Surface>(surface: &S, j: usize, k: usize) -> i32
    requires { (j < (S.Surface.shape surface.now).slices) × (k < (S.Surface.shape surface.now).stations) }
    ensures value { result ≡ (S.Surface.shape surface.now).ordinate j k }
    ensures within { unsigned_abs result ≤ 100000 }
{
    surface.ordinate(j, k).unwrap()
}
