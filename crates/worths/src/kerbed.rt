// The worth of a drawing: a rounded effect, and of equals the kerb count.
ghost use Rattle.worths.specs.Kinds.{kerbed_kind, kerbed};
ghost use Rattle.std.proofs.Common.{rules};

use crate::Worth;

// A rounded effect, and how near the left kerb the lanes lie; the effect is compared first.
#[derive(Clone, Copy, PartialEq, Eq, PartialOrd, Ord, Debug)]
pub struct Kerbed {
    pub effect: u64,
    pub kerb: u64,
}

impl Worth for Kerbed {
    ghost kind = { kerbed_kind };

    ghost made = { kerbed };

    ghost lawful = { Prim.search rules };

    ghost counts = { Prim.search rules };

    fn zero() -> Kerbed {
        Kerbed { effect: 0, kerb: 0 }
    }

    fn of(effect: u64, kerb: u64) -> Kerbed {
        Kerbed { effect, kerb }
    }

    fn plus(self, other: Kerbed) -> Kerbed {
        Kerbed {
            effect: self.effect + other.effect,
            kerb: self.kerb + other.kerb,
        }
    }

    fn is_below(self, other: Kerbed) -> bool {
        self < other
    }
}
