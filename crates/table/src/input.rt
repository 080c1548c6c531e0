// Input that may be read as a table.
ghost use Rattle.std.specs.Prelude.{◌≡◌, ◌<◌, ◌≤◌, length, MatchResult};
ghost use Rattle.table.specs.Lines.{most_bytes};

use crate::fault::TextFault;
use crate::line::check_length;

// Input that is no longer than a table may be.
#[derive(Clone, Copy)]
pub struct Input<'a> {
    pub bytes: &'a [u8],
    ghost short: { length bytes.now ≤ most_bytes },
}

impl<'a> Input<'a> {
    // These bytes, if they are few enough.
    pub fn of(bytes: &'a [u8]) -> Result<Input<'a>, TextFault>
        ensures { MatchResult result (λ input. input.bytes.now ≡ bytes.now) (λ e. (e ≡ TextFault.TooLong) × (most_bytes < length bytes.now)) }
    {
        check_length(bytes)?;
        Ok(Input { bytes })
    }
}
