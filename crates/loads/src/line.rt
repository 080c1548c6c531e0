// A line that runs straight between the stations of a grid.

ghost use Rattle.loads.specs.Held.{Values};

use crate::grid::Grid;
use crate::stations::STATIONS;

// Its values at the stations.
#[derive(Clone, Copy)]
pub(crate) struct Line<'a> {
    pub grid: &'a Grid,
    pub values: &'a [i32; STATIONS],
    ghost low: { Values 400000 grid.now.stations.count values.now },
}
