// Where a record, or the rest of one, stands in the input.
ghost use Rattle.std.specs.Prelude.{◌≡◌, ◌+◌, ◌^◌, ◌<◌, nat_le, length};

use crate::fault::TextFault;
use crate::line::LineEnd;

// A byte of the input, and the number of the record that it belongs to; records count from 1.
#[derive(Clone, Copy, PartialEq, Eq, Debug)]
pub struct Cursor<'a> {
    pub input: &'a [u8],
    pub at: usize,
    pub record: u32,
}

impl<'a> Cursor<'a> {
    // The first record.
    pub fn start(input: &'a [u8]) -> Cursor<'a>
        ensures { result ≡ record { input = input.entry; at = 0; «record» = 1 } }
    {
        Cursor {
            input,
            at: 0,
            record: 1,
        }
    }

    // The record after this one, which was read.
    pub fn after(self, line: LineEnd) -> Cursor<'a>
        requires { self.«record» + 1 < 2 ^ 32 }
        ensures { result ≡ record self.entry { at = line.next; «record» = self.entry.«record» + 1 } }
    {
        Cursor {
            input: self.input,
            at: line.next,
            record: self.record + 1,
        }
    }

    // Whether no byte is left.
    pub fn is_at_end(self) -> bool
        ensures { result ≡ nat_le (length self.entry.input.now) self.entry.at }
    {
        self.input.len() <= self.at
    }

    // The same record at another byte.
    pub fn moved_to(self, at: usize) -> Cursor<'a>
        ensures { result ≡ record self.entry { at = at } }
    {
        Cursor { at, ..self }
    }

    // The fault at a field of this record; field 0 is the record itself.
    pub fn fault(self, field: u32) -> TextFault
        ensures { result ≡ TextFault.Malformed self.entry.«record» field }
    {
        TextFault::Malformed {
            record: self.record,
            field,
        }
    }
}
