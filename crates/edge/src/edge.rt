// An edge surface and its four questions.
ghost use Rattle.std.specs.Prelude.{◌≡◌, pos};
ghost use Rattle.edge.specs.Edges.{Lined, Natural, Leaning, level_line, edge_shape, edge_lawful};
ghost use Rattle.edge.specs.Judged.{edge_judged};
ghost use Rattle.surface.specs.Verdict.{Answered};

use crate::checks::check_edge;
use crate::shares::mix_edges;
use crate::station::Station;
use surface::Surface;
use surface::fault::SurfaceFault;

// One line of stations, held for reading, and its factor at each edge in thousandths.
#[derive(Drop)]
pub struct Edge<'a> {
    slices: usize,
    left: i32,
    right: i32,
    line: &'a [Station],
    ghost lined: { Lined slices line.now },
    ghost natural: { Natural line.now },
    ghost leaning: { Leaning left right line.now },
}

static LEVEL: [Station; 2] = [
    Station {
        place: 0,
        ordinate: 0,
    },
    Station {
        place: 1,
        ordinate: 0,
    },
];

impl<'a> Edge<'a> {
    // The built-in surface, level at 0, which making fills.
    pub fn level() -> Edge<'a>
        ensures slices { result.slices ≡ 60 }
        ensures factors { (result.left ≡ pos 0) × (result.right ≡ pos 0) }
        ensures line { result.line.now ≡ level_line }
    {
        Edge {
            slices: 60,
            left: 0,
            right: 0,
            line: &LEVEL,
        }
    }

    // The surface of lawful parts.
    fn of_parts(slices: usize, left: i32, right: i32, line: &'a [Station]) -> Edge<'a>
        requires { (Lined slices line.now) × ((Natural line.now) × (Leaning left right line.now)) }
        ensures slices { result.slices ≡ slices }
        ensures factors { (result.left ≡ left) × (result.right ≡ right) }
        ensures line { result.line.now ≡ line.now }
    {
        Edge {
            slices,
            left,
            right,
            line,
        }
    }

    // Makes `self` the surface of a line over so many slices, with its factors at the left and the right edge.
    pub fn make(
        &mut self,
        slices: i32,
        left: i32,
        right: i32,
        line: &'a [Station],
    ) -> Result<(), SurfaceFault>
        ensures { Answered (edge_judged slices left right line.now) result ((pos self.new.slices ≡ slices) × (self.new.left ≡ left) × (self.new.right ≡ right) × (self.new.line.now ≡ line.now)) (self.new ≡ self.old) }
    {
        check_edge(slices, left, right, line)?;
        *self = Edge::of_parts(slices as usize, left, right, line);
        Ok(())
    }
}

impl<'a> Surface for Edge<'a> {
    ghost shape = { λ s. edge_shape s.slices s.left s.right s.line.now };

    ghost lawful = { λ s. edge_lawful s.slices s.left s.right s.line.now s.lined s.leaning };

    fn slices(&self) -> usize {
        self.slices
    }

    fn stations(&self) -> usize {
        self.line.len()
    }

    // As in `measured`, each surface reads its own rows behind a test that every surface makes.
    fn place(&self, k: usize) -> Result<u32, SurfaceFault> {
        if k >= self.stations() {
            return Err(SurfaceFault::Absent);
        }
        Ok(self.line[k].place as u32)
    }

    fn ordinate(&self, j: usize, k: usize) -> Result<i32, SurfaceFault> {
        if j >= self.slices() || k >= self.stations() {
            return Err(SurfaceFault::Absent);
        }
        let n = self.slices();
        let v = self.line[k].ordinate;
        Ok(mix_edges(v, self.left, self.right, n, j))
    }
}
