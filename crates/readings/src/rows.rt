// The rows of a run's table.
ghost use Rattle.std.specs.Prelude.{◌≡◌, ◌+◌, ◌<◌, ◌≤◌, length, drop, pos, is_ok, if◌then◌else◌, MatchResult, ◌≢◌, slice_index_or, slice_set};
ghost use Rattle.measured.specs.Judged.{row_of, station_judged};
ghost use Rattle.table.specs.Lines.{text_at};
ghost use Rattle.table.specs.declared.fault.TextFault.TheVariants.{Malformed};
ghost use Rattle.readings.specs.Runs.{RowTaken, RowStops};

use measured::measured::Draft;
use measured::row::Row;
use records::numbers::read_numbers;
use surface::fault::SurfaceFault;
use table::cursor::Cursor;
use table::fault::TextFault;
use table::line::LineEnd;

// The most numbers of a row: a place and eight ordinates.
const MOST_NUMBERS: usize = 9;

// Takes the station of a row with these numbers: the place, then the ordinates.
fn take_station(draft: &mut Draft, rows: &mut [Row], numbers: &[i32]) -> Result<(), SurfaceFault>
    requires { (1 ≤ length numbers.now) × (length numbers.now ≤ 9) }
    ensures verdict { result ≡ station_judged draft.old.layout.count draft.old.filled rows.old (slice_index_or numbers.now 0 (pos 0)) (drop 1 numbers.now) }
    ensures layout { draft.new.layout ≡ draft.old.layout }
    ensures filled { draft.new.filled ≡ (if is_ok result then draft.old.filled + 1 else draft.old.filled) }
    ensures rows { rows.new ≡ (if is_ok result then slice_set rows.old draft.old.filled (row_of draft.old.layout.count (slice_index_or numbers.now 0 (pos 0)) (drop 1 numbers.now)) else rows.old) }
{
    draft.station(rows, numbers[0], &numbers[1..])
}

// A row has as many fields as the header.
fn check_fields(here: Cursor<'_>, found: usize, fields: usize) -> Result<(), TextFault>
    ensures { MatchResult result (λ _. found ≡ fields) (λ e. (found ≢ fields) × (e ≡ Malformed here.entry.«record» 0)) }
{
    if found != fields {
        return Err(here.fault(0));
    }
    Ok(())
}

// Takes the row that begins here as the draft's next station, and hands out where it ends.
pub fn read_row(
    here: Cursor<'_>,
    fields: usize,
    draft: &mut Draft,
    rows: &mut [Row],
) -> Result<LineEnd, SurfaceFault>
    requires text { (here.at < length here.input.now) × (length here.input.now ≤ 65536) }
    requires place { here.«record» ≡ draft.old.filled + 2 }
    requires fields { (fields ≡ draft.old.layout.count + 1) × (fields ≤ 9) }
    ensures row { MatchResult result (λ e. RowTaken draft.old.layout.count draft.old.filled rows.old here.entry.input.now here.entry.at e.next rows.new) (λ f. RowStops draft.old.layout.count draft.old.filled rows.old (text_at here.entry) f) }
    ensures layout { draft.new.layout ≡ draft.old.layout }
    ensures filled { draft.new.filled ≡ (if is_ok result then draft.old.filled + 1 else draft.old.filled) }
{
    let line = here.line()?;
    check_fields(here, line.fields, fields)?;
    let numbers = read_numbers::<i32, MOST_NUMBERS>(here, 1, fields)?;
    take_station(draft, rows, numbers.as_slice())?;
    Ok(line)
}
