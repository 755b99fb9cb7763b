use std::alloc::{AllocError, AllocFailed};

/// Why a module has no object.
#[derive(Clone, Copy, PartialEq, Eq, Debug)]
pub enum GenFault {
    /// Want of memory.
    NoMemory,
    /// The code passes 1,048,576 instructions.
    CodeTooLarge,
}

impl From<AllocError> for GenFault {
    ghost use Rattle.std.specs.Prelude.{◌≡◌};
    ghost use Rattle.dis_generation.specs.declared.fault.GenFault.TheVariants.{NoMemory};

    ghost from_gives = { λ _ e. e ≡ NoMemory };

    fn from(_error: AllocError) -> GenFault {
        GenFault::NoMemory
    }
}

impl<T: Drop> From<AllocFailed<T>> for GenFault {
    ghost use Rattle.std.specs.Prelude.{◌≡◌};
    ghost use Rattle.dis_generation.specs.declared.fault.GenFault.TheVariants.{NoMemory};

    ghost from_gives = { λ _ e. e ≡ NoMemory };

    fn from(_error: AllocFailed<T>) -> GenFault {
        GenFault::NoMemory
    }
}
