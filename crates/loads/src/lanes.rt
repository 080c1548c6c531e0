// T of the lanes of a carriageway whose ordinates are held.

ghost use Rattle.std.specs.Prelude.{◌≡◌, ℕ, ◌+◌, ◌<◌, ◌≤◌, pos, slice_index_or, unsigned_abs};
ghost use Rattle.lines.specs.Lines.{IsTandem};
ghost use Rattle.loads.specs.Held.{Values, held_sum, lane_line};

use crate::grid::Grid;
use crate::line::Line;
use crate::stations::STATIONS;
use model::lanes::wheel_slices;
use model::tandems::Tandem;

// The lane of so many slices from row `start` of a grid on.
#[derive(Clone, Copy)]
pub(crate) struct Lane<'a> {
    pub grid: &'a Grid,
    pub start: usize,
    pub slices: usize,
    ghost wide: { 54 ≤ slices },
    ghost inside: { start + slices ≤ 300 },
}

impl Lane<'_> {
    // The ordinates under the wheels of an axle at station k.
    #[tactic(auto, using(crate::proofs::Wheels::sum_3_fits, crate::proofs::Wheels::sum_4_fits, crate::proofs::Wheels::sum_value, crate::proofs::Wheels::sum_within))]
    fn wheel_sum(self, k: usize) -> i32
        requires { k < 64 }
        ensures value { result ≡ held_sum self.entry.grid.now.heights self.entry.start self.entry.slices k }
        ensures within { unsigned_abs result ≤ 400000 }
    {
        let rows = &self.grid.heights;
        let [a, b, c, d] = wheel_slices(self.slices);
        rows[self.start + a][k]
            + rows[self.start + b][k]
            + rows[self.start + c][k]
            + rows[self.start + d][k]
    }

    // W at the stations, in an array of a grid's size, since a figure takes no memory.
    fn values(self) -> [i32; STATIONS]
        ensures value { (k : ℕ) → k < self.entry.grid.now.stations.count → slice_index_or result k (pos 0) ≡ held_sum self.entry.grid.now.heights self.entry.start self.entry.slices k }
        ensures within { Values 400000 self.entry.grid.now.stations.count result }
    {
        let count = self.grid.stations.count;
        let mut values = [0; STATIONS];
        for (k, value) in values[..count].iter_mut().enumerate() {
            *value = self.wheel_sum(k);
        }
        values
    }

    // T of the lane.
    pub(crate) fn tandem(self) -> Tandem
        ensures { IsTandem (lane_line self.entry.grid.now.stations.count self.entry.grid.now.stations.places self.entry.grid.now.heights self.entry.start self.entry.slices) result.t result.place }
    {
        let values = self.values();
        let line = Line {
            grid: self.grid,
            values: &values,
        };
        line.tandem()
    }
}
