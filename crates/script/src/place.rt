// Where a record of a script may begin.
ghost use Rattle.std.specs.Prelude.{◌≡◌, ◌+◌, ◌^◌, ◌<◌, ◌≤◌, nat_le, length, take, MatchResult};
ghost use Rattle.table.specs.Lines.{most_bytes, LineRead, LineRefused};

use table::cursor::Cursor;
use table::fault::TextFault;
use table::input::Input;
use table::line::LineEnd;

// A byte of a script, or its end, and the number of the record there; the script is no longer than a table may be.
#[derive(Clone, Copy)]
pub(crate) struct Place<'a> {
    pub cursor: Cursor<'a>,
    ghost short: { length cursor.input.now ≤ most_bytes },
    ghost within: { cursor.at ≤ length cursor.input.now },
}

impl<'a> Place<'a> {
    // The first record.
    pub fn start(script: Input<'a>) -> Place<'a>
        ensures { result.cursor ≡ record { input = script.entry.bytes; at = 0; «record» = 1 } }
    {
        Place {
            cursor: Cursor::start(script.bytes),
        }
    }

    // The end, where no record is left, with the number of this one.
    pub fn end(self) -> Place<'a>
        ensures { result.cursor ≡ record self.entry.cursor { at = length self.entry.cursor.input.now } }
    {
        Place {
            cursor: self.cursor.moved_to(self.cursor.input.len()),
        }
    }

    // The record after this one, which was read.
    pub fn after(self, line: LineEnd) -> Place<'a>
        requires number { self.cursor.«record» + 1 < 2 ^ 32 }
        requires next { line.next ≤ length self.cursor.input.now }
        ensures { result.cursor ≡ record self.entry.cursor { at = line.next; «record» = self.entry.cursor.«record» + 1 } }
    {
        Place {
            cursor: self.cursor.after(line),
        }
    }

    // Whether no byte is left.
    pub fn is_at_end(self) -> bool
        ensures { result ≡ nat_le (length self.entry.cursor.input.now) self.entry.cursor.at }
    {
        self.cursor.is_at_end()
    }

    // The record that begins here; a fault at the first of its fields that does not stand.
    pub fn line(self) -> Result<LineEnd, TextFault>
        ensures { MatchResult result (λ e. LineRead self.entry.cursor.input.now self.entry.cursor.at e) (λ e. LineRefused self.entry.cursor.input.now self.entry.cursor.at self.entry.cursor.«record» e) }
    {
        self.cursor.line()
    }

    // The script before this record.
    pub fn preceding(self) -> Input<'a>
        ensures { result.bytes.now ≡ take self.entry.cursor.at self.entry.cursor.input.now }
    {
        Input {
            bytes: &self.cursor.input[..self.cursor.at],
        }
    }
}
