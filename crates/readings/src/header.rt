// The header of a run's table.
ghost use Rattle.std.specs.Prelude.{◌≡◌, ℕ, ◌-◌, ◌<◌, ◌≤◌, List, length, pos, MatchResult, slice_index_or, unsigned_abs};
ghost use Rattle.measured.specs.Judged.{Begun, header_judged};
ghost use Rattle.surface.specs.Verdict.{Granted};
ghost use Rattle.table.specs.Cells.{Cell};
ghost use Rattle.table.specs.Lines.{Line};
ghost use Rattle.readings.specs.Runs.{slices_of, Opened, HeaderRefused};

use measured::measured::Draft;
use records::numbers::read_numbers;
use surface::fault::SurfaceFault;
use table::cursor::Cursor;

// The most paths that a surface may have.
const MOST_PATHS: usize = 8;

// Begins a draft with these paths; the deck has first + last + 1 slices.
fn begin(paths: &[i32]) -> Result<Draft, SurfaceFault>
    requires count { (0 < length paths.now) × (length paths.now ≤ 8) }
    requires small { (unsigned_abs (slice_index_or paths.now 0 (pos 0)) < 10000000) × (unsigned_abs (slice_index_or paths.now (length paths.now - 1) (pos 0)) < 10000000) }
    ensures { Granted (header_judged (slices_of paths.now) paths.now) result (λ d. Begun (slices_of paths.now) paths.now d.layout.slices d.layout.count d.layout.paths d.filled) }
{
    let slices = paths[0] + paths[paths.len() - 1] + 1;
    Draft::new(slices, paths)
}

// Begins a draft with the header, the record of so many fields at the beginning of the input.
pub fn read_header(input: &[u8], fields: usize) -> Result<Draft, SurfaceFault>
    requires { (((cs : List Cell) × ((ys : List ℕ) × (Line cs input.now ys × (length cs ≡ fields))))) × (length input.now ≤ 65536) }
    ensures { (cs : List Cell) (ys : List ℕ) → Line cs input.now ys → length cs ≡ fields → MatchResult result (λ d. Opened cs d.layout.slices d.layout.count d.layout.paths d.filled) (λ f. HeaderRefused cs f) }
{
    let start = Cursor::start(input);
    let word = start.field(1)?;
    if !word.field.is_word(b"mm") {
        return Err(SurfaceFault::Text(start.fault(1)));
    }
    let paths = fields - 1;
    if paths == 0 {
        return Err(SurfaceFault::Counts {
            record: 1,
            field: 0,
        });
    }
    let numbers = read_numbers::<i32, MOST_PATHS>(start.moved_to(word.next + 1), 2, paths)?;
    if paths > MOST_PATHS {
        return Err(SurfaceFault::Counts {
            record: 1,
            field: 0,
        });
    }
    begin(numbers.as_slice())
}
