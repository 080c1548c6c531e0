// Why a surface, or a question about one, is refused.
ghost use Rattle.std.specs.Prelude.{◌≡◌};
ghost use Rattle.surface.specs.Told.{surface_told};
ghost use Rattle.surface.specs.declared.fault.SurfaceFault.TheVariants.{Text};

use table::fault::{Layer, Report, TextFault};

#[derive(Clone, Copy, PartialEq, Eq, Debug)]
pub enum SurfaceFault {
    // The text that the surface was to come from.
    Text(TextFault),
    // Slices, paths or stations outside their counts; paths that do not rise or are off the deck.
    Counts { record: u32, field: u32 },
    // The first place not 0, a place that does not rise, or one of 200,000 and more.
    Place { record: u32, field: u32 },
    // An ordinate or an edge factor out of range.
    Ordinate { record: u32, field: u32 },
    // A list that is too short.
    Short { record: u32 },
    // No such slice or station.
    Absent,
}

impl From<TextFault> for SurfaceFault {
    ghost from_gives = { λ f r. r ≡ Text f };

    fn from(f: TextFault) -> SurfaceFault {
        SurfaceFault::Text(f)
    }
}

impl From<SurfaceFault> for Report {
    ghost from_gives = { λ f r. r ≡ surface_told f };

    // The refusal's number, layer and place.
    fn from(f: SurfaceFault) -> Report {
        let (number, record, field) = match f {
            SurfaceFault::Text(t) => return Report::from(t),
            SurfaceFault::Counts { record, field } => (2, record, field),
            SurfaceFault::Place { record, field } => (3, record, field),
            SurfaceFault::Ordinate { record, field } => (4, record, field),
            SurfaceFault::Short { record } => (9, record, 0),
            SurfaceFault::Absent => (10, 0, 0),
        };
        Report {
            number,
            layer: Layer::Surface,
            record,
            field,
        }
    }
}
