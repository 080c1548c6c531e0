// A run's table, read whole.
ghost use Rattle.std.specs.Prelude.{◌≡◌, ℕ, ◌<◌, length, MatchResult};
ghost use Rattle.table.specs.declared.fault.TextFault.TheVariants.{Malformed};
ghost use Rattle.readings.specs.Runs.{RunTaken, RunRefused};

use crate::header::read_header;
use crate::rows::read_row;
use measured::measured::Draft;
use measured::row::Row;
use surface::fault::SurfaceFault;
use table::cursor::Cursor;
use table::fault::TextFault;
use table::line::check_length;

// A table has a record at least.
fn check_begun(input: &[u8]) -> Result<(), TextFault>
    ensures { MatchResult result (λ _. 0 < length input.now) (λ e. (length input.now ≡ 0) × (e ≡ Malformed 1 0)) }
{
    if input.is_empty() {
        return Err(TextFault::Malformed {
            record: 1,
            field: 0,
        });
    }
    Ok(())
}

// Reads a run's table into the rows, and hands out their draft; the rows stand as before where the table is refused.
// A loop from record to record, since one begins where the one before was seen to end. The 64 rows are lent, as a rule of the project asks.
pub fn read_run(input: &[u8], rows: &mut [Row; 64]) -> Result<Draft, SurfaceFault>
    ensures { MatchResult result (λ d. RunTaken input.now rows.old rows.new d.layout.slices d.layout.count d.layout.paths d.filled) (λ f. RunRefused input.now rows.old f × (rows.new ≡ rows.old)) }
{
    check_length(input)?;
    check_begun(input)?;
    let start = Cursor::start(input);
    let header = start.line()?;
    let mut draft = read_header(input, header.fields)?;
    let mut filled = *rows;
    let mut here = start.after(header);
    while !here.is_at_end() {
        let row = read_row(here, header.fields, &mut draft, &mut filled)?;
        here = here.after(row);
    }
    *rows = filled;
    Ok(draft)
}
