// The stations that the rows of an edge surface say.
ghost use Rattle.std.specs.Prelude.{◌≡◌, pos, slice_index_or};
ghost use Rattle.script.specs.Stations.{StationSaid, StationUnsaid};

use crate::entries::Entry;
use edge::station::Station;
use records::numbers::read_numbers;
use table::cursor::Cursor;
use table::fault::TextFault;

// How many fields a row has: a place and an ordinate.
const FIELDS: usize = 2;

fn station_of(numbers: [i32; FIELDS]) -> Station
    ensures place { result.place ≡ slice_index_or numbers 0 (pos 0) }
    ensures ordinate { result.ordinate ≡ slice_index_or numbers 1 (pos 0) }
{
    let [place, ordinate] = numbers;
    Station { place, ordinate }
}

impl Entry for Station {
    ghost said = { StationSaid };

    ghost unsaid = { StationUnsaid };

    fn read(here: Cursor<'_>, fields: usize) -> Result<Station, TextFault> {
        if fields != FIELDS {
            return Err(here.fault(0));
        }
        let numbers = read_numbers::<i32, FIELDS>(here, 1, FIELDS)?;
        Ok(station_of(numbers.into_inner().unwrap()))
    }
}
