// One record of a table: how many fields it has, and where it ends.
ghost use Rattle.std.specs.Prelude.{◌≡◌, ◌<◌, ◌≤◌, length, MatchResult};
ghost use Rattle.table.specs.Lines.{most_bytes, LineRead, LineRefused};

use crate::cursor::Cursor;
use crate::fault::TextFault;

// The most bytes that a table may have.
pub const LONGEST: usize = 65_536;

// A record that was read.
#[derive(Clone, Copy, PartialEq, Eq, Debug)]
pub struct LineEnd {
    pub fields: usize,
    // Where the record's text ends.
    pub end: usize,
    // Where the next record begins: after CR LF, or at the end of the input.
    pub next: usize,
}

// Refuses input that is longer than a table may be.
pub fn check_length(input: &[u8]) -> Result<(), TextFault>
    ensures { MatchResult result (λ _. length input.now ≤ most_bytes) (λ e. (e ≡ TextFault.TooLong) × (most_bytes < length input.now)) }
{
    if input.len() > LONGEST {
        Err(TextFault::TooLong)
    } else {
        Ok(())
    }
}

impl Cursor<'_> {
    // The record that begins here; a fault at the first of its fields that does not stand.
    // A loop over bytes, since a field begins where the one before was seen to end.
    pub fn line(self) -> Result<LineEnd, TextFault>
        ensures { MatchResult result (λ e. LineRead self.entry.input.now self.entry.at e) (λ e. LineRefused self.entry.input.now self.entry.at self.entry.«record» e) }
    {
        check_length(self.input)?;
        let mut fields = 1;
        let mut end = self.field(fields)?.next;
        while end < self.input.len() && self.input[end] == b',' {
            fields += 1;
            end = self.moved_to(end + 1).field(fields)?.next;
        }
        let next = if end < self.input.len() { end + 2 } else { end };
        Ok(LineEnd {
            fields: fields as usize,
            end,
            next,
        })
    }
}
