// The job: a surface, and the card that says what is in force over it.
ghost use Rattle.std.specs.Prelude.{◌≡◌, true};
ghost use Rattle.card.specs.Bounds.{in_bounds};

use card::entries::Card;
use surface::Surface;

#[derive(Drop)]
pub struct Job<S: Surface> {
    pub(crate) surface: S,
    pub(crate) card: Card,
    ghost bounded: { in_bounds 40 40 card.factors ≡ true },
    ghost kept: { in_bounds 40 40 card.earlier ≡ true },
}
