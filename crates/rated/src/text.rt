// The lines that answer a table.
ghost use Rattle.std.specs.Prelude.{IfOk, string_bytes};
ghost use Rattle.rated.specs.Texts.{AnsweredBy, BothLines, LineOf};

use crate::rate::rate_table;
use card::answers::Answer;
use model::weights::LoadKind;
use report::figures::figure_cells;
use report::told::refusal_line;
use std::alloc::{AllocError, Global};

// The line of an answer; only a figure has one.
fn answer_line(heap: Global, kind: LoadKind, answer: &Answer) -> Result<String, AllocError>
    ensures { IfOk result (λ s. LineOf kind answer.now (string_bytes s)) }
{
    match answer {
        Answer::Rated { rating, layout } => {
            let cells = figure_cells(heap, kind, rating.figure, layout)?;
            format!(in heap; "{cells}\n")
        }
        _ => Ok(String::new(heap)),
    }
}

// A header, and a line for each figure.
fn figure_lines(
    heap: Global,
    characteristic: &Answer,
    frequent: &Answer,
) -> Result<String, AllocError>
    ensures { IfOk result (λ s. BothLines characteristic.now frequent.now (string_bytes s)) }
{
    let first = answer_line(heap, LoadKind::Characteristic, characteristic)?;
    let second = answer_line(heap, LoadKind::Frequent, frequent)?;
    format!(in heap; "kind,figure,lane1,lane2,lane3,place1,place2,place3\n{first}{second}")
}

// The text that tells the figures of a table's deck, or why the table is refused.
pub fn sheet_text(heap: Global, input: &[u8]) -> Result<String, AllocError>
    ensures { IfOk result (λ s. AnsweredBy input.now (string_bytes s)) }
{
    let mut answers = [Answer::Done; 2];
    match rate_table(input, &mut answers) {
        Ok(()) => figure_lines(heap, &answers[0], &answers[1]),
        Err(fault) => refusal_line(heap, fault),
    }
}
