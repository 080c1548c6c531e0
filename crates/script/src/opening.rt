// The record that opens a job.
ghost use Rattle.std.specs.Prelude.{◌≡◌, ℕ, List, length, MatchResult};
ghost use Rattle.table.specs.Cells.{Cell};
ghost use Rattle.table.specs.Lines.{Line, text_at};
ghost use Rattle.script.specs.Calls.{Opens, Unopened};

use crate::first::read_first;
use crate::rest::read_rest;
use model::lanes::Carriageway;
use table::cursor::Cursor;
use table::fault::TextFault;

#[derive(Clone, Copy, PartialEq, Eq, Debug)]
pub struct Opening {
    pub number: u32,
    pub kerbs: Carriageway,
}

// Reads the opening that the record here says, which has so many fields.
pub(crate) fn read_open(here: Cursor<'_>, fields: usize) -> Result<Opening, TextFault>
    ensures { (cs : List Cell) (ys : List ℕ) → Line cs (text_at here.entry) ys → length cs ≡ fields → MatchResult result (λ o. Opens cs o.number o.kerbs) (λ e. Unopened here.entry.«record» cs e) }
{
    let word = read_first(here, 1)?;
    if !word.field.is_word(b"open") {
        return Err(here.fault(1));
    }
    let [number, first, width] = read_rest::<3>(word.rest, fields)?;
    Ok(Opening {
        number,
        kerbs: Carriageway { first, width },
    })
}
