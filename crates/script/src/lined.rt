// The part of a script that says an edge surface.
ghost use Rattle.std.specs.Prelude.{◌≡◌, ℕ, List, length, pos, MatchResult, slice_index_or};
ghost use Rattle.table.specs.Cells.{Cell};
ghost use Rattle.table.specs.Lines.{Line};
ghost use Rattle.script.specs.Faults.{IfTold};
ghost use Rattle.script.specs.Edges.{EdgeHeaded, EdgeUnheaded, EdgeRead, EdgeRefused};

use crate::entries::read_entries;
use crate::fault::ScriptFault;
use crate::first::read_first;
use crate::place::Place;
use edge::station::Station;
use records::numbers::read_numbers;
use std::alloc::Global;
use table::cursor::Cursor;
use table::fault::TextFault;
use table::input::Input;

// How many numbers the header has after its word.
const HEADER: usize = 3;

// The header: slices, and the factors of the left and the right edge in thousandths.
#[derive(Clone, Copy, PartialEq, Eq, Debug)]
pub struct Edges {
    pub slices: i32,
    pub left: i32,
    pub right: i32,
}

// The header and its line of stations.
#[derive(Drop)]
pub struct Lined {
    pub edges: Edges,
    pub line: Vec<Station>,
}

fn edges_of(numbers: [i32; HEADER]) -> Edges
    ensures slices { result.slices ≡ slice_index_or numbers 0 (pos 0) }
    ensures left { result.left ≡ slice_index_or numbers 1 (pos 0) }
    ensures right { result.right ≡ slice_index_or numbers 2 (pos 0) }
{
    let [slices, left, right] = numbers;
    Edges {
        slices,
        left,
        right,
    }
}

// The header that the first record says, which has so many fields.
fn read_edges(part: &[u8], fields: usize) -> Result<Edges, TextFault>
    ensures { (cs : List Cell) (ys : List ℕ) → Line cs part.now ys → length cs ≡ fields → MatchResult result (λ e. EdgeHeaded cs e.slices e.left e.right) (λ e. EdgeUnheaded cs e) }
{
    let start = Cursor::start(part);
    let word = read_first(start, 1)?;
    if fields != HEADER + 1 {
        return Err(start.fault(0));
    }
    let numbers = read_numbers::<i32, HEADER>(word.rest, 2, HEADER)?;
    Ok(edges_of(numbers.into_inner().unwrap()))
}

// Reads the part as an edge surface's header and rows.
pub(crate) fn read_lined(heap: Global, part: Input<'_>) -> Result<Lined, ScriptFault>
    ensures { MatchResult result (λ l. EdgeRead part.entry.bytes.now l.edges.slices l.edges.left l.edges.right l.line.items) (IfTold (EdgeRefused part.entry.bytes.now)) }
{
    let start = Place::start(part);
    let header = start.line()?;
    let edges = read_edges(part.bytes, header.fields)?;
    let line = read_entries(heap, start.after(header))?;
    Ok(Lined { edges, line })
}
