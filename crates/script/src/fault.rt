// Why a script is not read.
ghost use Rattle.std.specs.Prelude.{◌≡◌};
ghost use Rattle.script.specs.declared.fault.ScriptFault.TheVariants.{Told, Memory};
ghost use Rattle.surface.specs.declared.fault.SurfaceFault.TheVariants.{Text};

use std::alloc::{AllocError, AllocFailed};
use surface::fault::SurfaceFault;
use table::fault::TextFault;

#[derive(Clone, Copy, PartialEq, Eq, Debug)]
pub enum ScriptFault {
    // The first fault of text or surface.
    Told(SurfaceFault),
    // No memory is left to hold the script.
    Memory,
}

impl From<TextFault> for ScriptFault {
    ghost from_gives = { λ f r. r ≡ Told (Text f) };

    fn from(fault: TextFault) -> ScriptFault {
        ScriptFault::Told(SurfaceFault::Text(fault))
    }
}

impl From<SurfaceFault> for ScriptFault {
    ghost from_gives = { λ f r. r ≡ Told f };

    fn from(fault: SurfaceFault) -> ScriptFault {
        ScriptFault::Told(fault)
    }
}

impl From<AllocError> for ScriptFault {
    ghost from_gives = { λ _ r. r ≡ Memory };

    fn from(_fault: AllocError) -> ScriptFault {
        ScriptFault::Memory
    }
}

impl<T: Drop> From<AllocFailed<T>> for ScriptFault {
    ghost from_gives = { λ _ r. r ≡ Memory };

    fn from(_refused: AllocFailed<T>) -> ScriptFault {
        ScriptFault::Memory
    }
}
