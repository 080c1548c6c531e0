// The numbers that follow a word.
ghost use Rattle.std.specs.Prelude.{◌≡◌, ℕ, ◌+◌, ◌<◌, ◌≤◌, List, length, MatchResult};
ghost use Rattle.table.specs.Cells.{Cell};
ghost use Rattle.table.specs.Lines.{Line, text_at};
ghost use Rattle.table.specs.Numbers.{Counts};
ghost use Rattle.records.specs.Numbers.{Missed};
ghost use Rattle.script.specs.Rest.{Naturals, NotNumbers};

use records::numbers::read_numbers;
use table::cursor::Cursor;
use table::fault::TextFault;

// Reads as many numbers; they begin here, after the word of a record.
pub(crate) fn read_naturals<const COUNT: usize>(here: Cursor<'_>) -> Result<[u32; COUNT], TextFault>
    requires { COUNT ≤ 9 }
    ensures { (ds : List Cell) (ys : List ℕ) → Line ds (text_at here.entry) ys → length ds ≡ COUNT → MatchResult result (Naturals ds) (Missed Counts ds here.entry.«record» 2) }
{
    let numbers = read_numbers::<u32, COUNT>(here, 2, COUNT)?;
    Ok(numbers.into_inner().unwrap())
}

// Reads the numbers after the word of a record of so many fields; they begin here, and a wrong number of them is told first.
pub fn read_rest<const COUNT: usize>(
    here: Cursor<'_>,
    fields: usize,
) -> Result<[u32; COUNT], TextFault>
    requires { (0 < COUNT) × (COUNT ≤ 9) }
    ensures { (ds : List Cell) (ys : List ℕ) → (0 < length ds → Line ds (text_at here.entry) ys) → length ds + 1 ≡ fields → MatchResult result (λ ns. (length ds ≡ COUNT) × Naturals ds ns) (NotNumbers here.entry.«record» COUNT ds) }
{
    if fields != COUNT + 1 {
        return Err(here.fault(0));
    }
    read_naturals(here)
}
