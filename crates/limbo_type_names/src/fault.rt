use inf_text::Span;
use std::alloc::{AllocError, AllocFailed};

/// Why a written type means none.
#[derive(Clone, Copy, PartialEq, Eq, Debug)]
pub enum TypeFault {
    /// Want of memory, or a type of more than 4,096 nodes.
    NoMemory,
    /// Refusal 42: the name that stands there isn't there.
    Unknown { at: Span },
    /// Refusal 50: the name that stands there is no type, or behind `ref` neither an adt nor a variant.
    NotAType { at: Span },
}

impl From<AllocError> for TypeFault {
    ghost use Rattle.std.specs.Prelude.{◌≡◌};
    ghost use Rattle.limbo_type_names.specs.declared.fault.TypeFault.TheVariants.{NoMemory};

    ghost from_gives = { λ _ e. e ≡ NoMemory };

    fn from(_error: AllocError) -> TypeFault {
        TypeFault::NoMemory
    }
}

impl<T: Drop> From<AllocFailed<T>> for TypeFault {
    ghost use Rattle.std.specs.Prelude.{◌≡◌};
    ghost use Rattle.limbo_type_names.specs.declared.fault.TypeFault.TheVariants.{NoMemory};

    ghost from_gives = { λ _ e. e ≡ NoMemory };

    fn from(_error: AllocFailed<T>) -> TypeFault {
        TypeFault::NoMemory
    }
}

/// Why the declarations of a source don't all stand for types that should. A declaration is told by its number.
#[derive(Clone, Copy, PartialEq, Eq, Debug)]
pub enum TypesFault {
    /// Want of memory, or a type of more than 4,096 nodes.
    NoMemory,
    /// Refusal 42: a name in the type that is declared isn't there.
    Unknown { number: u32, at: Span },
    /// Refusal 50: a name in it is no type, or behind `ref` neither an adt nor a variant.
    NotAType { number: u32, at: Span },
    /// Refusal 55: it goes in a circle.
    TypeTooLarge { number: u32 },
}

impl From<AllocError> for TypesFault {
    ghost use Rattle.std.specs.Prelude.{◌≡◌};
    ghost use Rattle.limbo_type_names.specs.declared.fault.TypesFault.TheVariants.{NoMemory};

    ghost from_gives = { λ _ e. e ≡ NoMemory };

    fn from(_error: AllocError) -> TypesFault {
        TypesFault::NoMemory
    }
}

impl<T: Drop> From<AllocFailed<T>> for TypesFault {
    ghost use Rattle.std.specs.Prelude.{◌≡◌};
    ghost use Rattle.limbo_type_names.specs.declared.fault.TypesFault.TheVariants.{NoMemory};

    ghost from_gives = { λ _ e. e ≡ NoMemory };

    fn from(_error: AllocFailed<T>) -> TypesFault {
        TypesFault::NoMemory
    }
}
