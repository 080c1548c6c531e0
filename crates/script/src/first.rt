// The first field of a record, or of what is left of one.
ghost use Rattle.std.specs.Prelude.{◌≡◌, ℕ, List, IfOk, MatchResult};
ghost use Rattle.table.specs.Cells.{Cell, cell_of};
ghost use Rattle.table.specs.Lines.{Line, text_at};
ghost use Rattle.script.specs.Lines.{Split};

use table::cursor::Cursor;
use table::fault::TextFault;
use table::field::Field;

// A field, and where the rest of its record begins.
#[derive(Clone, Copy, PartialEq, Eq, Debug)]
pub struct First<'a> {
    pub field: Field<'a>,
    pub rest: Cursor<'a>,
}

// The field that stands here, as this one of its record.
pub fn read_first(here: Cursor<'_>, field: u32) -> Result<First<'_>, TextFault>
    ensures split { (cs : List Cell) (ys : List ℕ) → Line cs (text_at here.entry) ys → MatchResult result (λ f. Split cs (cell_of f.field.text) (text_at f.rest) ys) (λ _. ⊥) }
    ensures rest { IfOk result (λ f. f.rest.«record» ≡ here.entry.«record») }
{
    let read = here.field(field)?;
    Ok(First {
        field: read.field,
        rest: here.moved_to(read.next.saturating_add(1)),
    })
}
