// The checks of a header, of a station's ordinates, and of a row.
ghost use Rattle.std.specs.Prelude.{◌≡◌, ◌<◌, ◌≤◌, length};
ghost use Rattle.measured.specs.Judged.{header_judged, path_judged, ordinates_judged, row_judged};

use crate::layout::Layout;
use crate::row::Row;
use surface::each::check_each;
use surface::fault::SurfaceFault;

// Path i lies on the deck, past the one before.
fn check_path(slices: i32, paths: &[i32], i: usize) -> Result<(), SurfaceFault>
    requires { (i < 8) × (i < length paths.now) }
    ensures { result ≡ path_judged slices paths.now i }
{
    let path = paths[i];
    if !(0..slices).contains(&path) || (i > 0 && path <= paths[i - 1]) {
        return Err(SurfaceFault::Counts {
            record: 1,
            field: i as u32 + 2,
        });
    }
    Ok(())
}

// The counts of a header, then its paths.
pub fn check_header(slices: i32, paths: &[i32]) -> Result<(), SurfaceFault>
    ensures { result ≡ header_judged slices paths.now }
{
    if !(60..=300).contains(&slices) || !(1..=8).contains(&paths.len()) {
        return Err(SurfaceFault::Counts {
            record: 1,
            field: 0,
        });
    }
    check_each(paths.len(), |i| check_path(slices, paths, i))
}

// The leftmost ordinate that is out of range.
pub fn check_ordinates(line: u32, ordinates: &[i32]) -> Result<(), SurfaceFault>
    requires { length ordinates.now ≤ 8 }
    ensures { result ≡ ordinates_judged line 2 ordinates.now }
{
    match ordinates.iter().position(|v| v.unsigned_abs() > 100_000) {
        Some(i) => Err(SurfaceFault::Ordinate {
            record: line,
            field: i as u32 + 2,
        }),
        None => Ok(()),
    }
}

// Row k: its place against the one before, then its ordinates.
pub fn check_row(layout: &Layout, rows: &[Row], k: usize) -> Result<(), SurfaceFault>
    requires { (k < 64) × (k < length rows.now) }
    ensures { result ≡ row_judged layout.now.count rows.now k }
{
    let row = rows[k];
    let rises = if k == 0 {
        row.place == 0
    } else {
        rows[k - 1].place < row.place
    };
    if !rises || row.place >= 200_000 {
        return Err(SurfaceFault::Place {
            record: k as u32 + 2,
            field: 1,
        });
    }
    check_ordinates(k as u32 + 2, &row.ordinates[..layout.count])
}
