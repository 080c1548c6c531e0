// The checks of an edge surface: its counts, its stations in order, its factors.
ghost use Rattle.std.specs.Prelude.{◌≡◌, ◌<◌, length};
ghost use Rattle.edge.specs.Judged.{edge_judged, station_judged};

use crate::station::Station;
use surface::each::check_each;
use surface::fault::SurfaceFault;
use surface::stations::place_fits;

// Station k: its place against the one before, then its ordinate.
fn check_station(line: &[Station], k: usize) -> Result<(), SurfaceFault>
    requires { k < length line.now }
    ensures { result ≡ station_judged line.now k }
{
    let station = line[k];
    let before = if k == 0 { 0 } else { line[k - 1].place };
    if !place_fits(k, i64::from(before), station.place) {
        return Err(SurfaceFault::Place {
            record: 0,
            field: 0,
        });
    }
    if station.ordinate.unsigned_abs() > 50_000 {
        return Err(SurfaceFault::Ordinate {
            record: 0,
            field: 0,
        });
    }
    Ok(())
}

// The width of a deck, a line over it, and its factors at the two edges. They come one by one, since only what passes is an edge surface.
pub fn check_edge(slices: i32, left: i32, right: i32, line: &[Station]) -> Result<(), SurfaceFault>
    ensures { result ≡ edge_judged slices left right line.now }
{
    if !(60..=300).contains(&slices) || !(2..=64).contains(&line.len()) {
        return Err(SurfaceFault::Counts {
            record: 0,
            field: 0,
        });
    }
    check_each(line.len(), |k| check_station(line, k))?;
    if left.unsigned_abs() > 2_000 || right.unsigned_abs() > 2_000 {
        return Err(SurfaceFault::Ordinate {
            record: 0,
            field: 0,
        });
    }
    Ok(())
}
