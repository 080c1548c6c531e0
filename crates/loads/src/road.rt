// A and T of the slices of a carriageway, by what is held of them.

ghost use Rattle.std.specs.Prelude.{◌≡◌, ◌-◌, ◌<◌, ◌≤◌};
ghost use Rattle.model.specs.Lanes.{breadth, lane_slices};
ghost use Rattle.lines.specs.Areas.{area_to};
ghost use Rattle.loads.specs.Held.{row_of};
ghost use Rattle.loads.specs.Grids.{line_on};
ghost use Rattle.loads.specs.Filled.{TandemAt};

use crate::grid::Grid;
use crate::lanes::Lane;
use crate::line::Line;
use model::lanes::Carriageway;
use model::tandems::Tandem;

// A carriageway, and the grid that has rows for it.
#[derive(Clone, Copy)]
pub(crate) struct Road<'a> {
    pub grid: &'a Grid,
    pub carriageway: Carriageway,
    ghost few: { breadth carriageway ≤ 300 },
}

impl Road<'_> {
    // A of slice j.
    pub(crate) fn area(self, j: usize) -> u64
        requires { j < breadth self.carriageway }
        ensures { result ≡ area_to (line_on self.entry.grid.now (row_of self.entry.grid.now.heights j)) (self.entry.grid.now.stations.count - 1) }
    {
        let line = Line {
            grid: self.grid,
            values: &self.grid.heights[j],
        };
        line.area()
    }

    // T of the lane that begins at slice `start`, or none where no lane fits there.
    pub(crate) fn tandem(self, start: usize) -> Tandem
        requires { start < breadth self.carriageway }
        ensures { TandemAt self.entry.grid.now.stations.count self.entry.grid.now.stations.places self.entry.grid.now.heights (breadth self.entry.carriageway) (lane_slices self.entry.carriageway.width) start result }
    {
        let slices = self.carriageway.slices();
        let lane = self.carriageway.lane_slices();
        if start + lane > slices {
            return Tandem::none();
        }
        let lane = Lane {
            grid: self.grid,
            start,
            slices: lane,
        };
        lane.tandem()
    }
}
