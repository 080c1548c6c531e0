// The figure that is reported of a worth: its rounded effect.

ghost use Rattle.std.specs.Prelude.{◌≡◌, ℕ};
ghost use Rattle.std.proofs.Common.{rules};

use worths::{Kerbed, Worth};

// A worth of which a figure is reported.
pub trait Reported: Worth {
    // The rounded effect that it is made of.
    ghost effect: { Self → ℕ };

    fn figure(self) -> u64
        ensures { result ≡ effect self };

    // The worth of an effect shows that effect, whatever its kerb count.
    ghost shown: { (e k : ℕ) → effect (Self.made e k) ≡ e };
}

// Figures are worth their rounded effect.
impl Reported for u64 {
    ghost effect = { λ w. w };

    ghost shown = { Prim.search rules };

    fn figure(self) -> u64 {
        self
    }
}

// Drawings are worth a rounded effect and a kerb count.
impl Reported for Kerbed {
    ghost effect = { λ w. w.effect };

    ghost shown = { Prim.search rules };

    fn figure(self) -> u64 {
        self.effect
    }
}
