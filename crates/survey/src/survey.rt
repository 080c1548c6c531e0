// A run's table becomes a sealed surface, and its extent is told.
ghost use Rattle.std.specs.Prelude.{◌≡◌, ◌≤◌, length, MatchResult};
ghost use Rattle.measured.specs.Judged.{seal_judged};
ghost use Rattle.measured.specs.Rows.{rows_shape};
ghost use Rattle.surface.specs.Verdict.{Granted};
ghost use Rattle.survey.specs.Extents.{Extends};
ghost use Rattle.survey.specs.Surveys.{Surveyed, SurveyRefused};

use crate::extent::{Extent, extent_of};
use measured::measured::{Draft, Measured};
use measured::row::Row;
use readings::run::read_run;
use surface::fault::SurfaceFault;

// Seals a draft over its rows, and tells the extent of the surface.
fn sealed_extent(draft: Draft, rows: &[Row]) -> Result<Extent, SurfaceFault>
    ensures { Granted (seal_judged draft.layout.count rows.now draft.filled) result (λ e. Extends (rows_shape draft.layout.slices draft.layout.count draft.layout.paths draft.filled rows.now) e) }
{
    let mut surface = Measured::level();
    draft.seal(rows, &mut surface).map_err(|back| back.1)?;
    Ok(extent_of(&surface))
}

// The extent of the surface that a run's table gives, or the table's first fault.
pub fn survey_run(input: &[u8]) -> Result<Extent, SurfaceFault>
    ensures { MatchResult result (Surveyed input.now) (SurveyRefused input.now) }
{
    let mut rows = [Row::BLANK; 64];
    let draft = read_run(input, &mut rows)?;
    sealed_extent(draft, &rows)
}
