// The worth of a figure: the rounded effect alone.
ghost use Rattle.worths.specs.Kinds.{effect_kind};
ghost use Rattle.std.proofs.Common.{rules};

use crate::Worth;

impl Worth for u64 {
    ghost kind = { effect_kind };

    ghost made = { λ e k. e };

    ghost lawful = { Prim.search rules };

    ghost counts = { Prim.search rules };

    fn zero() -> u64 {
        0
    }

    fn of(effect: u64, _kerb: u64) -> u64 {
        effect
    }

    fn plus(self, other: u64) -> u64 {
        self + other
    }

    fn is_below(self, other: u64) -> bool {
        self < other
    }
}
