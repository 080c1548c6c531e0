// Eight places, of which a list may fill fewer.
ghost use Rattle.std.specs.Prelude.{◌≡◌, ◌-◌, ◌≤◌, ◌++◌, length, replicate, pos};

// The values in order, and 0 in each place that is left: the library copies, and no form of it fills the rest.
pub fn padded(values: &[i32]) -> [i32; 8]
    requires { length values.now ≤ 8 }
    ensures { result ≡ values.now ++ replicate (8 - length values.now) (pos 0) }
{
    let mut all = [0; 8];
    all[..values.len()].copy_from_slice(values);
    all
}
