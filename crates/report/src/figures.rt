// The cells and the line of a figure or a drawing that was taken.
ghost use Rattle.std.specs.Prelude.{◌≡◌, IfOk, string_bytes};
ghost use Rattle.report.specs.Lines.{FigureCells, ShownLine, figure_text};

use crate::cells::{spaced_cell, three_cells};
use crate::lanes::{ShownLane, shown_lane};
use crate::others::other_starts;
use crate::words::duty_name;
use card::answers::{Layout, Rating};
use model::weights::LoadKind;
use std::alloc::{AllocError, Global};

// A kind and a value, and for lanes 1 to 3 the first slice and the rear place.
fn lane_cells(
    heap: Global,
    kind: LoadKind,
    figure: u64,
    first: ShownLane,
    second: ShownLane,
    third: ShownLane,
) -> Result<String, AllocError>
    ensures { IfOk result (λ s. string_bytes s ≡ figure_text kind figure first.start second.start third.start first.place second.place third.place) }
{
    let lanes = three_cells(heap, first.start, second.start, third.start)?;
    let places = three_cells(heap, first.place, second.place, third.place)?;
    format!(in heap; "{kind},{figure},{lanes},{places}")
}

// The cells of a figure, with lanes 1 to 3 as its layout shows them.
pub fn figure_cells(
    heap: Global,
    kind: LoadKind,
    figure: u64,
    layout: &Layout,
) -> Result<String, AllocError>
    ensures { IfOk result (λ s. FigureCells kind figure layout.now (string_bytes s)) }
{
    let first = shown_lane(&layout.owners, &layout.tandems, 1);
    let second = shown_lane(&layout.owners, &layout.tandems, 2);
    let third = shown_lane(&layout.owners, &layout.tandems, 3);
    lane_cells(heap, kind, figure, first, second, third)
}

// The line of a figure or a drawing: its word, its cells, its other lanes, and whether a duty is open.
pub fn shown_line(
    heap: Global,
    word: &str,
    kind: LoadKind,
    rating: Rating,
    layout: &Layout,
) -> Result<String, AllocError>
    ensures { IfOk result (λ s. ShownLine word.now kind rating layout.now (string_bytes s)) }
{
    let cells = figure_cells(heap, kind, rating.figure, layout)?;
    let starts = other_starts(heap, &layout.owners)?;
    let others = spaced_cell(heap, starts.as_slice())?;
    let duty = duty_name(rating.duty);
    format!(in heap; "{word},{cells},{others},{duty}\n")
}
