// A run's table becomes a sealed surface, and a job over it gives both figures.
ghost use Rattle.std.specs.Prelude.{◌≡◌, ◌/◌, Ok, MatchResult};
ghost use Rattle.measured.specs.Judged.{seal_judged};
ghost use Rattle.measured.specs.Rows.{rows_shape};
ghost use Rattle.rated.specs.Ratings.{Figures, SealedRated, RatedTable, RefusedTable};

use card::answers::Answer;
use card::calls::{AMPLE, Call};
use card::fault::JobFault;
use measured::measured::{Draft, Measured};
use measured::row::Row;
use model::lanes::Carriageway;
use model::weights::LoadKind;
use rating::replay::replay;
use readings::run::read_run;
use surface::Surface;

// Both figures of a job over the whole deck, with every factor 1.00: the carriageway begins at slice 0 and is half as many decimetres wide as the deck has slices.
fn rate_deck<S: Surface + Drop>(surface: S, answers: &mut [Answer; 2]) -> Result<(), JobFault>
    ensures { (result ≡ Ok tt) × Figures (S.Surface.shape surface) answers.new }
{
    let width = surface.slices() / 2;
    let kerbs = Carriageway {
        first: 0,
        width: width as u32,
    };
    let calls = [
        Call::Figure {
            kind: LoadKind::Characteristic,
            lengths: AMPLE,
        },
        Call::Figure {
            kind: LoadKind::Frequent,
            lengths: AMPLE,
        },
    ];
    match replay(surface, 0, kerbs, &calls, answers)? {
        None => Ok(()),
        Some(_) => unreachable(),
    }
}

// Seals a draft over its rows, and rates its surface.
fn rate_sealed(draft: Draft, rows: &[Row], answers: &mut [Answer; 2]) -> Result<(), JobFault>
    ensures { SealedRated (seal_judged draft.layout.count rows.now draft.filled) result (Figures (rows_shape draft.layout.slices draft.layout.count draft.layout.paths draft.filled rows.now) answers.new) }
{
    let mut surface = Measured::level();
    draft.seal(rows, &mut surface).map_err(|back| back.1)?;
    rate_deck(surface, answers)
}

// Rates the surface that a run's table gives, or refuses the table for its first fault.
pub fn rate_table(input: &[u8], answers: &mut [Answer; 2]) -> Result<(), JobFault>
    ensures { MatchResult result (λ _. RatedTable input.now answers.new) (RefusedTable input.now) }
{
    let mut rows = [Row::BLANK; 64];
    let draft = read_run(input, &mut rows)?;
    rate_sealed(draft, &rows, answers)
}
