// Figure and drawing over a surface: areas, tandems, the best worth of each entry, and the winner's owners.

ghost use Rattle.std.specs.Prelude.{◌≡◌, true};
ghost use Rattle.card.specs.Bounds.{kerbs_fit, in_bounds};
ghost use Rattle.card.specs.Steps.{long_enough};
ghost use Rattle.statement.specs.Figures.{Listed};
ghost use Rattle.figures.specs.Lent.{setting, lent, lengths};

use crate::placed::place_listed;
use crate::reported::Reported;
use loads::lists::fill_loads;
use model::lanes::Carriageway;
use model::tandems::Tandem;
use model::weights::{Factors, LoadKind};
use surface::Surface;

// The figure of the winner, of any kind of worth. A function of its own, so that another figure is refused at this code.
fn winner_figure<W: Reported>(won: W) -> u64
    ensures { result ≡ W.Reported.effect won }
{
    won.figure()
}

// Fills the four lists by any kind of worth, and answers the winner's rounded effect.
// A figure compares by the rounded effect alone, a drawing by the pair with the kerb count.
// The lists are four parameters, as the rules lend them: a contract reads what is left in a struct of them by nested pairs.
pub fn rate<S: Surface, W: Reported + Copy>(
    surface: &S,
    kerbs: Carriageway,
    factors: Factors,
    kind: LoadKind,
    areas: &mut [u64],
    tandems: &mut [Tandem],
    bests: &mut [Option<W>],
    owners: &mut [u8],
) -> u64
    requires fit { kerbs_fit (S.Surface.shape surface.now).slices kerbs ≡ true }
    requires bounds { in_bounds 40 40 factors ≡ true }
    requires long { long_enough kerbs (lengths areas.old tandems.old bests.old owners.old) ≡ true }
    ensures { Listed W.Worth.kind W.Worth.made (setting (S.Surface.shape surface.now) kerbs factors kind) result (lent areas.old tandems.old bests.old owners.old) (lent areas.new tandems.new bests.new owners.new) }
{
    fill_loads(surface, kerbs, areas, tandems);
    let won = place_listed::<W>(kerbs, kind, factors, areas, tandems, bests, owners);
    winner_figure(won)
}
