// The cells of a line: a number or nothing, three of them with commas, and any number of them with blanks.
ghost use Rattle.std.specs.Prelude.{◌≡◌, IfOk, Some, string_bytes};
ghost use Rattle.report.specs.Texts.{after_blank, cell_text, cells_text, spaced};

use std::alloc::{AllocError, Global};
use std::fmt;

// A number, or nothing where it is absent.
#[derive(Clone, Copy, PartialEq, Eq, Debug)]
struct Cell(Option<u32>);

impl fmt::Display for Cell {
    ghost output = { λ cell. Some (cell_text cell.0) };

    fn fmt<W: fmt::Write>(&self, f: &mut fmt::Formatter<W>) -> fmt::Result {
        match self.0 {
            Some(number) => write!(f, "{number}"),
            None => Ok(()),
        }
    }
}

// Three cells with commas between them.
pub fn three_cells(
    heap: Global,
    first: Option<u32>,
    second: Option<u32>,
    third: Option<u32>,
) -> Result<String, AllocError>
    ensures { IfOk result (λ s. string_bytes s ≡ cells_text (cell_text first) (cell_text second) (cell_text third)) }
{
    let a = Cell(first);
    let b = Cell(second);
    let c = Cell(third);
    format!(in heap; "{a},{b},{c}")
}

// A number after a blank.
fn blank_and(heap: Global, number: u32) -> Result<String, AllocError>
    ensures { IfOk result (λ s. string_bytes s ≡ after_blank number) }
{
    format!(in heap; " {number}")
}

// One cell of all the numbers, with a blank between each two.
pub fn spaced_cell(heap: Global, numbers: &[u32]) -> Result<String, AllocError>
    ensures { IfOk result (λ s. string_bytes s ≡ spaced numbers.now) }
{
    let [first, rest @ ..] = numbers else {
        return Ok(String::new(heap));
    };
    let mut text = format!(in heap; "{first}")?;
    for number in rest {
        let more = blank_and(heap, *number)?;
        text.push_str(more.as_str())?;
    }
    Ok(text)
}
