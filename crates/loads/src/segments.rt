// The other axle of each tandem with an axle at a station: it depends on the places alone.

ghost use Rattle.std.specs.Prelude.{ℕ, ◌+◌, ◌-◌, ◌<◌, ◌≤◌, slice_index, slice_index_or};
ghost use Rattle.loads.specs.Axles.{Under, Before, OtherIs, OthersAre};
ghost use Rattle.loads.specs.declared.others.Others.{Others as TheOthers};

use crate::others::{Axle, Other, Others};
use crate::stations::{STATIONS, Stations};

impl Stations {
    // The segment that holds a place, looked for from the segment `from` on, by a labelled search, as a rule of the
    // project asks.
    fn segment_under(&self, from: usize, place: u32) -> usize
        requires inside { from + 1 < self.now.count }
        requires after { slice_index self.now.places from ≤ place }
        requires on { place ≤ slice_index self.now.places (self.now.count - 1) }
        ensures { Under self.now.count self.now.places result place }
    {
        let mut k = from;
        'search: loop {
            if place <= self.places[k + 1] {
                break 'search k;
            }
            k += 1;
        }
    }

    // The other axle of the tandem with this axle at station i, looked for from where it stood at the station before.
    fn other(&self, axle: Axle, i: usize, before: Option<Other>) -> Option<Other>
        requires there { i < self.now.count }
        requires before { Before self.now.count self.now.places axle i before }
        ensures { OtherIs self.now.count self.now.places axle i result }
    {
        let end = self.places[self.count - 1];
        let place = axle.other(self.places[i], end)?;
        let from = before.map_or(0, |other| other.segment);
        let segment = self.segment_under(from, place);
        Some(Other { place, segment })
    }

    // The other axles for each station, in an array as a grid keeps it.
    pub(crate) fn others(&self) -> [Others; STATIONS]
        ensures { (i : ℕ) (o : TheOthers) → i < self.now.count → OthersAre self.now.count self.now.places i (slice_index_or result i o) }
    {
        let mut all = [Others::default(); STATIONS];
        let mut before = Others::default();
        for (i, others) in all[..self.count].iter_mut().enumerate() {
            before = Others {
                ahead: self.other(Axle::Rear, i, before.ahead),
                behind: self.other(Axle::Second, i, before.behind),
            };
            *others = before;
        }
        all
    }
}
