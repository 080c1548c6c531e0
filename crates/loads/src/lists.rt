// The areas and tandems of a carriageway on any surface, written into lists that the caller lends.

ghost use Rattle.std.specs.Prelude.{◌+◌, ◌≤◌, length};
ghost use Rattle.surface.specs.Shape.{Shape};
ghost use Rattle.model.specs.Lanes.{breadth};
ghost use Rattle.loads.specs.Grids.{Read};
ghost use Rattle.loads.specs.Filled.{AreasFilled, TandemsFilled};

use crate::grid::Grid;
use crate::road::Road;
use model::lanes::Carriageway;
use model::tandems::Tandem;
use surface::Surface;

// Writes A of each slice of the carriageway, of whatever surface the grid was read from.
// A carriageway may have any width (docs/DECISIONS.md), so each of the two asks that it has at most 300 slices.
pub fn fill_areas(grid: &Grid, carriageway: Carriageway, areas: &mut [u64])
    requires slices { breadth carriageway ≤ 300 }
    requires room { breadth carriageway ≤ length areas.old }
    ensures { (s : Shape) → Read s carriageway grid.now → AreasFilled s carriageway areas.old areas.new }
{
    let road = Road { grid, carriageway };
    let slices = carriageway.slices();
    for (j, area) in areas[..slices].iter_mut().enumerate() {
        *area = road.area(j);
    }
}

// Writes T and its place for each slice of the carriageway at which a lane can begin, and no tandem for the others.
// A loop beside that of the areas: a shared one would take the list, its kind and the writer as parameters.
pub fn fill_tandems(grid: &Grid, carriageway: Carriageway, tandems: &mut [Tandem])
    requires slices { breadth carriageway ≤ 300 }
    requires room { breadth carriageway ≤ length tandems.old }
    ensures { (s : Shape) → Read s carriageway grid.now → TandemsFilled s carriageway tandems.old tandems.new }
{
    let road = Road { grid, carriageway };
    let slices = carriageway.slices();
    for (x, tandem) in tandems[..slices].iter_mut().enumerate() {
        *tandem = road.tandem(x);
    }
}

// Both lists of a carriageway on a surface.
pub fn fill_loads<S: Surface>(
    surface: &S,
    carriageway: Carriageway,
    areas: &mut [u64],
    tandems: &mut [Tandem],
)
    requires deck { carriageway.first + breadth carriageway ≤ (S.Surface.shape surface.now).slices }
    requires areas { breadth carriageway ≤ length areas.old }
    requires tandems { breadth carriageway ≤ length tandems.old }
    ensures areas { AreasFilled (S.Surface.shape surface.now) carriageway areas.old areas.new }
    ensures tandems { TandemsFilled (S.Surface.shape surface.now) carriageway tandems.old tandems.new }
{
    let grid = Grid::read(surface, carriageway);
    fill_areas(&grid, carriageway, areas);
    fill_tandems(&grid, carriageway, tandems);
}
