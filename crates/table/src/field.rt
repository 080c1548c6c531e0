// One field of a table, and the reader that finds where it ends.
ghost use Rattle.std.specs.Prelude.{◌≡◌, ℕ, ◌+◌, ◌^◌, ◌<◌, ◌≤◌, List, ◌∷◌, length, take, drop, Decides, MatchOption, MatchResult};
ghost use Rattle.std.specs.List.{AllByRecursion};
ghost use Rattle.table.specs.Cells.{cell_of, content, written, Bare, Stops, Paired, ClosedAt, Ends, Stands, InFront, MalformedAt, plain, quoted};
ghost use Rattle.table.specs.Lines.{FieldRead, text_at};

use crate::cursor::Cursor;
use crate::fault::TextFault;

const QUOTE: u8 = b'"';

// The text of a field: bare, or what stands between its quotes, where a quote stands twice.
#[derive(Clone, Copy, PartialEq, Eq, Debug)]
pub enum Text<'a> {
    Plain(&'a [u8]),
    Quoted(&'a [u8]),
}

// A field with its place: records and fields count from 1.
#[derive(Clone, Copy, PartialEq, Eq, Debug)]
pub struct Field<'a> {
    pub record: u32,
    pub field: u32,
    pub text: Text<'a>,
}

// A field that was read, and where the byte after it stands.
#[derive(Clone, Copy, PartialEq, Eq, Debug)]
pub struct FieldEnd<'a> {
    pub field: Field<'a>,
    pub next: usize,
}

impl<'a> Cursor<'a> {
    // The field that stands here, as this one of its record; a fault where none does.
    pub fn field(self, field: u32) -> Result<FieldEnd<'a>, TextFault>
        ensures { MatchResult result (λ e. FieldRead self.entry.input.now self.entry.at self.entry.«record» field e) (λ e. (e ≡ TextFault.Malformed self.entry.«record» field) × MalformedAt (text_at self.entry)) }
    {
        let Some(text) = front_text(self.rest()) else {
            return Err(self.fault(field));
        };
        Ok(FieldEnd {
            field: Field {
                record: self.record,
                field,
                text,
            },
            next: self.at + text.width(),
        })
    }

    // The input from here on.
    fn rest(self) -> &'a [u8]
        ensures { result.now ≡ text_at self.entry }
    {
        &self.input[self.at.min(self.input.len())..]
    }
}

impl<'a> Field<'a> {
    // The text without the quotes around it; between them a quote stands twice, as it is written.
    pub fn word(self) -> &'a [u8]
        ensures { result.now ≡ content (cell_of self.entry.text) }
    {
        match self.text {
            Text::Plain(bytes) | Text::Quoted(bytes) => bytes,
        }
    }

    // Whether the word is exactly this one.
    pub fn is_word(self, word: &[u8]) -> bool
        ensures { Decides result (content (cell_of self.entry.text) ≡ word.now) }
    {
        self.word() == word
    }
}

impl Text<'_> {
    // How many bytes of the input the text takes, with its quotes.
    fn width(self) -> usize
        requires { length (written (cell_of self)) < 2 ^ 64 }
        ensures { result ≡ length (written (cell_of self.entry)) }
    {
        match self {
            Text::Plain(bytes) => bytes.len(),
            Text::Quoted(bytes) => bytes.len() + 2,
        }
    }
}

// The text of the field at the front of these bytes, if one stands there.
fn front_text(rest: &[u8]) -> Option<Text<'_>>
    ensures { MatchOption result (MalformedAt rest.now) (λ t. InFront (cell_of t) rest.now) }
{
    match rest {
        [QUOTE, inner @ ..] => quoted_text(inner),
        _ => plain_text(rest),
    }
}

// The bare bytes at the front, if a field ends after them.
fn plain_text(rest: &[u8]) -> Option<Text<'_>>
    ensures { MatchOption result ((bs ys : List ℕ) → Stands (plain bs) rest.now ys → ⊥) (λ t. InFront (cell_of t) rest.now) }
{
    let end = bare_length(rest);
    field_ends(&rest[end..]).then_some(Text::Plain(&rest[..end]))
}

// After an opening quote: the bytes before the closing quote, if there is one and a field ends after it.
fn quoted_text(inner: &[u8]) -> Option<Text<'_>>
    ensures { MatchOption result ((bs ys : List ℕ) → Stands (quoted bs) (34 ∷ inner.now) ys → ⊥) (λ t. InFront (cell_of t) (34 ∷ inner.now)) }
{
    let close = closing_quote(inner)?;
    field_ends(&inner[close + 1..]).then_some(Text::Quoted(&inner[..close]))
}

// Whether a field may end before these bytes: at a comma, at CR LF, or at the end.
fn field_ends(rest: &[u8]) -> bool
    ensures { Decides result (Ends rest.now) }
{
    matches!(rest, [] | [b',', ..] | [b'\r', b'\n', ..])
}

fn is_bare(byte: u8) -> bool
    ensures { Decides result (Bare byte) }
{
    byte != b',' && byte != QUOTE && byte != b'\r' && byte != b'\n'
}

// How many bare bytes stand at the front.
fn bare_length(rest: &[u8]) -> usize
    ensures within { result ≤ length rest.now }
    ensures bare { AllByRecursion Bare (take result rest.now) }
    ensures stops { Stops (drop result rest.now) }
{
    rest.iter()
        .position(|byte| !is_bare(*byte))
        .unwrap_or(rest.len())
}

// Where the first quote stands that is not one of a pair.
// A loop over an index, since a turn passes one byte or a pair of quotes.
fn closing_quote(inner: &[u8]) -> Option<usize>
    ensures { MatchOption result (Paired inner.now) (λ n. ClosedAt inner.now n) }
{
    let mut i = 0;
    while i < inner.len() {
        if inner[i] != QUOTE {
            i += 1;
        } else if i + 1 < inner.len() && inner[i + 1] == QUOTE {
            i += 2;
        } else {
            return Some(i);
        }
    }
    None
}
