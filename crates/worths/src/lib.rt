// Worths by which placements are compared: a rounded effect alone, or a rounded effect and then a kerb count.
#![tactic(auto)]

ghost use Rattle.std.specs.Prelude.{◌≡◌, ℕ, ◌+◌, ◌^◌, ◌<◌};
ghost use Rattle.placing.specs.Kind.{Kind, Laws, Counts};

pub use kerbed::Kerbed;

mod effect;
mod kerbed;

// What placements are compared by: a zero, a sum and an order, whose laws each kind of worth is shown to obey.
pub trait Worth {
    ghost kind: { Kind Self };

    // The worth of an effect and a kerb count.
    ghost made: { ℕ → ℕ → Self };

    fn zero() -> Self
        ensures { result ≡ kind.zero };

    fn of(effect: u64, kerb: u64) -> Self
        ensures { result ≡ made effect kerb };

    fn plus(self, other: Self) -> Self
        requires { kind.weight self + kind.weight other < 2 ^ 64 }
        ensures { result ≡ kind.sum self other };

    // A member and no Ord: the laws speak of this order, which a kind of worth may choose.
    fn is_below(self, other: Self) -> bool
        ensures { result ≡ kind.below self other };

    ghost lawful: { Laws kind };

    ghost counts: { Counts kind made };
}
