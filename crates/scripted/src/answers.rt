// The calls of a script, made through the run that carries the promise, and what they answer.
ghost use Rattle.std.specs.Prelude.{◌≤◌, length, IfOk, vec_len, string_bytes};
ghost use Rattle.scripted.specs.Left.{text_left, duty_left_by};
ghost use Rattle.scripted.specs.Runs.{OpenedLines, RanSo};

use crate::ran::Ran;
use card::answers::Answer;
use card::calls::Call;
use rating::replay::replay;
use report::told::answer_lines;
use report::words::opened_line;
use script::tail::Tail;
use std::alloc::{AllocError, Global};
use surface::Surface;
use table::fault::Report;

// That the job was opened, and a line for each call.
fn run_text(heap: Global, calls: &[Call], answers: &[Answer]) -> Result<String, AllocError>
    ensures { IfOk result (λ s. OpenedLines calls.now answers.now (string_bytes s)) }
{
    let lines = answer_lines(heap, calls, answers)?;
    let opened = opened_line();
    format!(in heap; "{opened}{lines}")
}

// Makes the calls, with an answer to each in these.
fn answered<S: Surface + Drop>(heap: Global, surface: S, tail: &Tail, answers: &mut [Answer]) -> Ran
    requires { vec_len tail.now.calls ≤ length answers.old }
    ensures { RanSo (S.Surface.shape surface) tail.now.opening.number tail.now.opening.kerbs tail.now.calls.items (text_left result) (duty_left_by result) }
{
    let calls = tail.calls.as_slice();
    let opening = tail.opening;
    match replay(surface, opening.number, opening.kerbs, calls, answers) {
        Ok(duty) => Ran {
            text: run_text(heap, calls, answers),
            duty,
        },
        Err(fault) => Ran {
            text: Report::from(fault).line(heap),
            duty: None,
        },
    }
}

// Makes the calls of the script over this surface.
pub fn make_calls<S: Surface + Drop>(heap: Global, surface: S, tail: &Tail) -> Ran
    ensures { RanSo (S.Surface.shape surface) tail.now.opening.number tail.now.opening.kerbs tail.now.calls.items (text_left result) (duty_left_by result) }
{
    match vec![in heap; Answer::Done; tail.calls.len()] {
        Ok(mut answers) => answered(heap, surface, tail, &mut answers),
        Err(fault) => {
            drop(surface);
            Ran {
                text: Err(fault),
                duty: None,
            }
        }
    }
}
