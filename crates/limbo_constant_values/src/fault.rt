use std::alloc::{AllocError, AllocFailed};

/// Why a source's constants have no values.
#[derive(Clone, Copy, PartialEq, Eq, Debug)]
pub enum ValuesFault {
    /// Want of memory.
    NoMemory,
    /// Refusal 43: what this declaration has is no constant.
    NotConstant {
        /// Its number.
        number: u32,
    },
}

impl From<AllocError> for ValuesFault {
    ghost use Rattle.std.specs.Prelude.{◌≡◌};
    ghost use Rattle.limbo_constant_values.specs.declared.fault.ValuesFault.TheVariants.{NoMemory};

    ghost from_gives = { λ _ e. e ≡ NoMemory };

    fn from(_error: AllocError) -> ValuesFault {
        ValuesFault::NoMemory
    }
}

impl<T: Drop> From<AllocFailed<T>> for ValuesFault {
    ghost use Rattle.std.specs.Prelude.{◌≡◌};
    ghost use Rattle.limbo_constant_values.specs.declared.fault.ValuesFault.TheVariants.{NoMemory};

    ghost from_gives = { λ _ e. e ≡ NoMemory };

    fn from(_error: AllocFailed<T>) -> ValuesFault {
        ValuesFault::NoMemory
    }
}
