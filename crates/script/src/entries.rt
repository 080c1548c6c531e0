// Records that each say one entry, read to the end of the script.
ghost use Rattle.std.specs.Prelude.{◌≡◌, ℕ, ◌≤◌, List, length, MatchResult};
ghost use Rattle.table.specs.Cells.{Cell};
ghost use Rattle.table.specs.Lines.{Line, text_at};
ghost use Rattle.table.specs.declared.fault.TextFault.{TextFault as Fault};
ghost use Rattle.script.specs.Entries.{Entered, Stopped};
ghost use Rattle.script.specs.Faults.{IfTold};

use crate::fault::ScriptFault;
use crate::place::Place;
use std::alloc::Global;
use table::cursor::Cursor;
use table::fault::TextFault;

// What one record says.
pub trait Entry: Copy {
    // The fields of a record say this entry.
    ghost said: { List Cell → Self → Type 0 };

    // The fields of the record of this number say none, for this fault.
    ghost unsaid: { ℕ → List Cell → Fault → Type 0 };

    // The entry that the record here says, which has so many fields.
    fn read(here: Cursor<'_>, fields: usize) -> Result<Self, TextFault>
        ensures { (cs : List Cell) (ys : List ℕ) → Line cs (text_at here.entry) ys → length cs ≡ fields → MatchResult result (λ v. said cs v) (λ e. unsaid here.entry.«record» cs e) };
}

// Reads the records from here on, in a loop from record to record, since one begins where the one before was seen to end.
pub(crate) fn read_entries<E: Entry + Drop>(
    heap: Global,
    from: Place<'_>,
) -> Result<Vec<E>, ScriptFault>
    requires { from.cursor.«record» ≤ 100000 }
    ensures { MatchResult result (λ v. Entered E.Entry.said (text_at from.entry.cursor) v.items) (IfTold (Stopped E.Entry.said E.Entry.unsaid from.entry.cursor.«record» (text_at from.entry.cursor))) }
{
    let mut entries = Vec::new(heap);
    let mut here = from;
    while !here.is_at_end() {
        let line = here.line()?;
        entries.push(E::read(here.cursor, line.fields)?)?;
        here = here.after(line);
    }
    Ok(entries)
}
