// The line of each answer, and the lines of a run.
ghost use Rattle.std.specs.Prelude.{◌≡◌, IfOk, string_bytes};
ghost use Rattle.card.specs.Told.{job_told};
ghost use Rattle.report.specs.Lines.{RatedLine, ToldLine, ToldLines};
ghost use Rattle.table.specs.Told.{refusal_text};

use crate::figures::shown_line;
use card::answers::{Answer, Layout, Rating};
use card::calls::Call;
use card::fault::JobFault;
use std::alloc::{AllocError, Global};
use table::fault::Report;

// The line of a refusal, of a job or of what is read for one. As in `survey`, a function of its own, so that a wrong line is refused at this code.
pub fn refusal_line(heap: Global, fault: JobFault) -> Result<String, AllocError>
    ensures { IfOk result (λ s. string_bytes s ≡ refusal_text (job_told fault)) }
{
    Report::from(fault).line(heap)
}

// The line of a rating; only a figure and a drawing have one. A match, since a call is data.
fn rated_line(
    heap: Global,
    call: Call,
    rating: Rating,
    layout: &Layout,
) -> Result<String, AllocError>
    ensures { IfOk result (λ s. RatedLine call rating layout.now (string_bytes s)) }
{
    match call {
        Call::Figure { kind, lengths: _ } => shown_line(heap, "figure", kind, rating, layout),
        Call::Drawing { kind, lengths: _ } => shown_line(heap, "drawing", kind, rating, layout),
        _ => Ok(String::new(heap)),
    }
}

// The line that tells what a call answered.
pub fn answer_line(heap: Global, call: Call, answer: &Answer) -> Result<String, AllocError>
    ensures { IfOk result (λ s. ToldLine call answer.now (string_bytes s)) }
{
    match answer {
        Answer::Refused(fault) => refusal_line(heap, *fault),
        Answer::Done => String::from_str(heap, "taken\n"),
        Answer::Handed { number, serial } => format!(in heap; "duty,{number},{serial}\n"),
        Answer::Rated { rating, layout } => rated_line(heap, call, *rating, layout),
    }
}

// The lines of all calls in order, as far as both lists go.
pub fn answer_lines(heap: Global, calls: &[Call], answers: &[Answer]) -> Result<String, AllocError>
    ensures { IfOk result (λ s. ToldLines calls.now answers.now (string_bytes s)) }
{
    let mut text = String::new(heap);
    for (call, answer) in calls.iter().zip(answers) {
        let line = answer_line(heap, *call, answer)?;
        text.push_str(line.as_str())?;
    }
    Ok(text)
}
