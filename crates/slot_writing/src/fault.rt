use std::alloc::{AllocError, AllocFailed};

/// Why a module has no code.
#[derive(Clone, Copy, PartialEq, Eq, Debug)]
pub enum LowerFault {
    /// Want of memory.
    NoMemory,
    /// A function's frame, or the variables of the module, pass 65,536 bytes.
    FrameTooLarge,
}

impl From<AllocError> for LowerFault {
    ghost use Rattle.std.specs.Prelude.{◌≡◌};
    ghost use Rattle.slot_writing.specs.declared.fault.LowerFault.TheVariants.{NoMemory};

    ghost from_gives = { λ _ e. e ≡ NoMemory };

    fn from(_error: AllocError) -> LowerFault {
        LowerFault::NoMemory
    }
}

impl<T: Drop> From<AllocFailed<T>> for LowerFault {
    ghost use Rattle.std.specs.Prelude.{◌≡◌};
    ghost use Rattle.slot_writing.specs.declared.fault.LowerFault.TheVariants.{NoMemory};

    ghost from_gives = { λ _ e. e ≡ NoMemory };

    fn from(_error: AllocFailed<T>) -> LowerFault {
        LowerFault::NoMemory
    }
}
