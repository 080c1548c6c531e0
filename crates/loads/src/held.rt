// A surface is read: the places of its stations, and the ordinates of a carriageway.

ghost use Rattle.std.specs.Prelude.{◌≡◌, ℕ, ◌+◌, ◌<◌, ◌≤◌, [], pos, slice_index, slice_index_or, unsigned_abs};
ghost use Rattle.model.specs.Lanes.{breadth};
ghost use Rattle.loads.specs.Held.{HeightsRead};
ghost use Rattle.loads.specs.Grids.{Ready, Read};

use crate::grid::{Grid, SLICES};
use crate::stations::{STATIONS, Stations};
use model::lanes::Carriageway;
use surface::Surface;
use surface::questions::{ordinate_of, place_of};

// The places of the stations, in an array as large as a grid keeps them.
fn places_of<S: Surface>(surface: &S) -> [u32; STATIONS]
    ensures { (k : ℕ) → k < (S.Surface.shape surface.now).stations → slice_index result k ≡ (S.Surface.shape surface.now).place k }
{
    let count = surface.stations();
    let mut places = [0; STATIONS];
    for (k, place) in places[..count].iter_mut().enumerate() {
        *place = place_of(surface, k);
    }
    places
}

// The ordinates of slice j at the stations, in an array as a grid keeps it; those after them are 0.
fn row_of<S: Surface>(surface: &S, j: usize) -> [i32; STATIONS]
    requires { j < (S.Surface.shape surface.now).slices }
    ensures value { (k : ℕ) → k < (S.Surface.shape surface.now).stations → slice_index_or result k (pos 0) ≡ (S.Surface.shape surface.now).ordinate j k }
    ensures low { (k : ℕ) → unsigned_abs (slice_index_or result k (pos 0)) ≤ 100000 }
{
    let count = surface.stations();
    let mut row = [0; STATIONS];
    for (k, height) in row[..count].iter_mut().enumerate() {
        *height = ordinate_of(surface, j, k);
    }
    row
}

// The rows of so many slices from slice `first` on; those after them are 0.
fn rows_of<S: Surface>(surface: &S, first: usize, slices: usize) -> [[i32; STATIONS]; SLICES]
    requires { first + slices ≤ (S.Surface.shape surface.now).slices }
    ensures value { HeightsRead (S.Surface.shape surface.now) first slices result }
    ensures low { (j k : ℕ) → unsigned_abs (slice_index_or (slice_index_or result j []) k (pos 0)) ≤ 100000 }
{
    let mut rows = [[0; STATIONS]; SLICES];
    for (j, row) in rows[..slices].iter_mut().enumerate() {
        *row = row_of(surface, first + j);
    }
    rows
}

impl Stations {
    // Asks the surface for the place of each station.
    fn read<S: Surface>(surface: &S) -> Stations
        ensures count { result.count ≡ (S.Surface.shape surface.now).stations }
        ensures places { (k : ℕ) → k < (S.Surface.shape surface.now).stations → slice_index result.places k ≡ (S.Surface.shape surface.now).place k }
    {
        let count = surface.stations();
        let places = places_of(surface);
        Stations { count, places }
    }
}

impl Grid {
    // Asks the surface for each number once.
    pub fn read<S: Surface>(surface: &S, carriageway: Carriageway) -> Grid
        requires { carriageway.first + breadth carriageway ≤ (S.Surface.shape surface.now).slices }
        ensures ready { Ready carriageway result }
        ensures read { Read (S.Surface.shape surface.now) carriageway result }
    {
        let stations = Stations::read(surface);
        let others = stations.others();
        let heights = rows_of(surface, carriageway.first as usize, carriageway.slices());
        Grid {
            stations,
            others,
            heights,
        }
    }
}
