// The lines that answer a table.
ghost use Rattle.std.specs.Prelude.{◌≡◌, IfOk, string_bytes};
ghost use Rattle.surface.specs.Told.{surface_told};
ghost use Rattle.survey.specs.Texts.{AnsweredBy, extent_text};
ghost use Rattle.table.specs.Told.{refusal_text};

use crate::extent::{Extent, Range};
use crate::survey::survey_run;
use std::alloc::{AllocError, Global};
use surface::fault::SurfaceFault;
use table::fault::Report;

// A header, and one line with the extent.
fn extent_lines(heap: Global, extent: Extent) -> Result<String, AllocError>
    ensures { IfOk result (λ s. string_bytes s ≡ extent_text extent) }
{
    let Extent {
        slices,
        stations,
        last_place,
        ordinates: Range { least, greatest },
    } = extent;
    format!(in heap;
        "slices,stations,last place,least,greatest\n{slices},{stations},{last_place},{least},{greatest}\n"
    )
}

// The line of a refusal. As in `report`, a function of its own, so that a wrong line is refused at this code.
fn refusal_line(heap: Global, fault: SurfaceFault) -> Result<String, AllocError>
    ensures { IfOk result (λ s. string_bytes s ≡ refusal_text (surface_told fault)) }
{
    Report::from(fault).line(heap)
}

// What `sheet` prints for a table.
pub fn sheet_text(heap: Global, input: &[u8]) -> Result<String, AllocError>
    ensures { IfOk result (λ s. AnsweredBy input.now (string_bytes s)) }
{
    match survey_run(input) {
        Ok(extent) => extent_lines(heap, extent),
        Err(fault) => refusal_line(heap, fault),
    }
}
