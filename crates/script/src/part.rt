// Where the surface's part of a script ends.
ghost use Rattle.std.specs.Prelude.{◌≡◌, ℕ, ◌≤◌, ◌⊎◌, List, Decides};
ghost use Rattle.table.specs.Cells.{Cell, cell_of, content};
ghost use Rattle.table.specs.Lines.{Line, text_at};
ghost use Rattle.script.specs.Lines.{Says};
ghost use Rattle.script.specs.Parts.{BeginsEdge, LeadsOn, EndsAt};
ghost use Rattle.script.specs.Words.{turned_word, open_word};

use crate::first::read_first;
use crate::place::Place;
use table::cursor::Cursor;
use table::field::Field;
use table::input::Input;

// Whether the record here begins with this word.
fn begins_with(here: Cursor<'_>, word: &[u8]) -> bool
    ensures { (cs : List Cell) (ys : List ℕ) → Line cs (text_at here.entry) ys → Decides result (Says cs word.now) }
{
    read_first(here, 1).is_ok_and(|first| first.field.is_word(word))
}

// Whether the script begins with a record whose word is `edge`.
pub fn says_edge(script: Input<'_>) -> bool
    ensures { Decides result (BeginsEdge script.entry.bytes.now) }
{
    let start = Place::start(script);
    start.line().is_ok() && begins_with(start.cursor, b"edge")
}

// Whether the field is `turned` or `open`.
fn ends_surface(field: Field<'_>) -> bool
    ensures { Decides result ((content (cell_of field.entry.text) ≡ turned_word) ⊎ (content (cell_of field.entry.text) ≡ open_word)) }
{
    field.is_word(b"turned") || field.is_word(b"open")
}

// Whether the record here begins with `turned` or `open`, with which the surface is over.
fn leads_on(here: Cursor<'_>) -> bool
    ensures { (cs : List Cell) (ys : List ℕ) → Line cs (text_at here.entry) ys → Decides result (LeadsOn cs) }
{
    read_first(here, 1).is_ok_and(|first| ends_surface(first.field))
}

// Where the surface's part ends and the rest begins: the part is the first record, and those after it before the first that begins with `turned` or `open`.
// It goes to the end where a record does not stand, and that record's fault comes in its turn.
// A loop from record to record, since one begins where the one before was seen to end.
pub(crate) fn surface_end(script: Input<'_>) -> Place<'_>
    ensures ends { EndsAt script.entry.bytes.now result.cursor.at result.cursor.«record» }
    ensures input { (result.cursor.input.now ≡ script.entry.bytes.now) × (result.cursor.«record» ≤ 70000) }
{
    let mut here = Place::start(script);
    while !here.is_at_end() {
        let Ok(line) = here.line() else {
            return here.end();
        };
        if here.cursor.at > 0 && leads_on(here.cursor) {
            return here;
        }
        here = here.after(line);
    }
    here
}
