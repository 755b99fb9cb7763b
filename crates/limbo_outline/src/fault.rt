//! Why a source has no outline.

use std::alloc::{AllocError, AllocFailed};

/// Why a source has no outline.
#[derive(Clone, Copy, PartialEq, Eq, Debug)]
pub enum OutlineFault {
    /// Want of memory.
    NoMemory,
    /// The variable of this number is declared by a value that says no type.
    NoType { number: u32 },
}

impl From<AllocError> for OutlineFault {
    ghost use Rattle.std.specs.Prelude.{◌≡◌};
    ghost use Rattle.limbo_outline.specs.declared.fault.OutlineFault.TheVariants.{NoMemory};

    ghost from_gives = { λ _ e. e ≡ NoMemory };

    fn from(_error: AllocError) -> OutlineFault {
        OutlineFault::NoMemory
    }
}

impl<T: Drop> From<AllocFailed<T>> for OutlineFault {
    ghost use Rattle.std.specs.Prelude.{◌≡◌};
    ghost use Rattle.limbo_outline.specs.declared.fault.OutlineFault.TheVariants.{NoMemory};

    ghost from_gives = { λ _ e. e ≡ NoMemory };

    fn from(_error: AllocFailed<T>) -> OutlineFault {
        OutlineFault::NoMemory
    }
}
