use inf_text::Span;
use std::alloc::{AllocError, AllocFailed};

/// Why a written type means none.
#[derive(Clone, Copy, PartialEq, Eq, Debug)]
pub enum WrittenFault {
    /// Want of memory, or of numbers.
    NoMemory,
    /// Refusal 42: the name that stands there isn't there.
    Unknown { at: Span },
    /// Refusal 50: the name that stands there is no type, or behind `ref` neither an adt nor a variant.
    NotAType { at: Span },
}

impl From<AllocError> for WrittenFault {
    ghost use Rattle.std.specs.Prelude.{◌≡◌};
    ghost use Rattle.limbo_body_types.specs.declared.fault.WrittenFault.TheVariants.{NoMemory};

    ghost from_gives = { λ _ e. e ≡ NoMemory };

    fn from(_error: AllocError) -> WrittenFault {
        WrittenFault::NoMemory
    }
}

impl<T: Drop> From<AllocFailed<T>> for WrittenFault {
    ghost use Rattle.std.specs.Prelude.{◌≡◌};
    ghost use Rattle.limbo_body_types.specs.declared.fault.WrittenFault.TheVariants.{NoMemory};

    ghost from_gives = { λ _ e. e ≡ NoMemory };

    fn from(_error: AllocFailed<T>) -> WrittenFault {
        WrittenFault::NoMemory
    }
}
