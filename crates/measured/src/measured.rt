// The measured surface: a draft takes stations and answers no question; sealed, it answers and takes none.
ghost use Rattle.std.specs.Prelude.{◌≡◌, ◌+◌, ◌≤◌, replicate, is_ok, if◌then◌else◌, slice_set};
ghost use Rattle.measured.specs.Judged.{Begun, header_judged, seal_judged, row_of, station_judged};
ghost use Rattle.measured.specs.Mixes.{rows_lawful};
ghost use Rattle.measured.specs.Rows.{Filled, Ranged, level_rows, rows_shape};
ghost use Rattle.surface.specs.Verdict.{Granted, Settled};

use crate::checks::{check_ordinates, check_row};
use crate::layout::Layout;
use crate::padding::padded;
use crate::row::Row;
use surface::Surface;
use surface::each::check_each;
use surface::fault::SurfaceFault;
use surface::stations::place_fits;

// A sealed surface, over rows held for reading: all that were lent, of which the first `stations` are filled.
#[derive(Drop)]
pub struct Measured<'a> {
    layout: Layout,
    stations: usize,
    rows: &'a [Row],
    ghost filled: { Filled stations rows.now },
    ghost ranged: { Ranged layout.count stations rows.now },
}

static LEVEL: [Row; 2] = [
    Row::BLANK,
    Row {
        place: 1,
        ..Row::BLANK
    },
];

impl<'a> Measured<'a> {
    // The built-in surface, level at 0, which sealing fills.
    pub fn level() -> Measured<'a>
        ensures layout { (result.layout.slices ≡ 60) × ((result.layout.count ≡ 1) × (result.layout.paths ≡ replicate 8 0)) }
        ensures stations { (result.stations ≡ 2) × (result.rows.now ≡ level_rows) }
    {
        let layout = Layout {
            slices: 60,
            count: 1,
            paths: [0; 8],
        };
        Measured {
            layout,
            stations: 2,
            rows: &LEVEL,
        }
    }
}

// A surface that takes stations and answers no question.
#[derive(Drop)]
pub struct Draft {
    layout: Layout,
    filled: usize,
    ghost room: { filled ≤ 64 },
}

impl Draft {
    // A draft with no stations yet.
    pub fn new(slices: i32, paths: &[i32]) -> Result<Draft, SurfaceFault>
        ensures { Granted (header_judged slices paths.now) result (λ d. Begun slices paths.now d.layout.slices d.layout.count d.layout.paths d.filled) }
    {
        let layout = Layout::new(slices, paths)?;
        Ok(Draft { layout, filled: 0 })
    }

    // One station more, in the next of the rows lent.
    pub fn station(
        &mut self,
        rows: &mut [Row],
        place: i32,
        ordinates: &[i32],
    ) -> Result<(), SurfaceFault>
        ensures verdict { result ≡ station_judged self.old.layout.count self.old.filled rows.old place ordinates.now }
        ensures layout { self.new.layout ≡ self.old.layout }
        ensures filled { self.new.filled ≡ (if is_ok result then self.old.filled + 1 else self.old.filled) }
        ensures rows { rows.new ≡ (if is_ok result then slice_set rows.old self.old.filled (row_of self.old.layout.count place ordinates.now) else rows.old) }
    {
        let k = self.filled;
        let count = self.layout.count;
        let line = k as u32 + 2;
        if k >= 64 {
            return Err(SurfaceFault::Counts {
                record: line,
                field: 0,
            });
        }
        if rows.len() < 64 || ordinates.len() < count {
            return Err(SurfaceFault::Short { record: line });
        }
        let before = if k == 0 { 0 } else { rows[k - 1].place };
        if !place_fits(k, i64::from(before), place) {
            return Err(SurfaceFault::Place {
                record: line,
                field: 1,
            });
        }
        check_ordinates(line, &ordinates[..count])?;
        rows[k] = Row {
            place: place as u32,
            ordinates: padded(&ordinates[..count]),
        };
        self.filled = k + 1;
        Ok(())
    }

    // What sealing checks: the rows lent, those filled, then their number.
    fn check(&self, rows: &[Row]) -> Result<(), SurfaceFault>
        ensures { result ≡ seal_judged self.now.layout.count rows.now self.now.filled }
    {
        if rows.len() < 64 {
            return Err(SurfaceFault::Short { record: 0 });
        }
        check_each(self.filled, |k| check_row(&self.layout, rows, k))?;
        if self.filled < 2 {
            return Err(SurfaceFault::Counts {
                record: 0,
                field: 0,
            });
        }
        Ok(())
    }

    // Makes `into` the surface of the stations taken, or gives the draft back.
    pub fn seal<'a>(
        self,
        rows: &'a [Row],
        into: &mut Measured<'a>,
    ) -> Result<(), (Draft, SurfaceFault)>
        ensures { Settled (seal_judged self.layout.count rows.now self.filled) self result ((into.new.layout ≡ self.layout) × (into.new.stations ≡ self.filled) × (into.new.rows.now ≡ rows.now)) (into.new ≡ into.old) }
    {
        if let Err(f) = self.check(rows) {
            return Err((self, f));
        }
        *into = Measured {
            layout: self.layout,
            stations: self.filled,
            rows,
        };
        Ok(())
    }
}

impl<'a> Surface for Measured<'a> {
    ghost shape = { λ s. rows_shape s.layout.slices s.layout.count s.layout.paths s.stations s.rows.now };

    ghost lawful = { λ s. rows_lawful s.layout.slices s.layout.count s.layout.paths s.stations s.rows.now s.layout.ok s.filled s.ranged };

    fn slices(&self) -> usize {
        self.layout.slices
    }

    fn stations(&self) -> usize {
        self.stations
    }

    // As in `edge`, each surface reads its own rows behind a test that every surface makes.
    fn place(&self, k: usize) -> Result<u32, SurfaceFault> {
        if k >= self.stations {
            return Err(SurfaceFault::Absent);
        }
        Ok(self.rows[k].place)
    }

    fn ordinate(&self, j: usize, k: usize) -> Result<i32, SurfaceFault> {
        if j >= self.slices() || k >= self.stations {
            return Err(SurfaceFault::Absent);
        }
        let row = self.rows[k];
        Ok(self.layout.at_slice(&row.ordinates, j))
    }
}
