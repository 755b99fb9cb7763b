//! Why a definition defines no function.

ghost use Rattle.std.specs.Prelude.{◌≡◌};
ghost use Rattle.limbo_bodies.specs.Numbers.{number_of};

use inf_text::Span;
use std::alloc::{AllocError, AllocFailed};

/// Why a definition defines no function.
#[derive(Clone, Copy, PartialEq, Eq, Debug)]
pub enum DefinitionFault {
    /// Want of memory.
    NoMemory,
    /// Refusal 42: a name in a type of a parameter, or of the answer, isn't there.
    Unknown { at: Span },
    /// Refusal 50: a name in such a type is no type, or behind `ref` neither an adt nor a variant.
    NotAType { at: Span },
    /// Refusal 42: no function of the module is declared under its name.
    Undeclared,
    /// Refusal 50: the function is declared with other types.
    Differs,
}

impl DefinitionFault {
    /// The number under which it is told; 0 for want of memory, which is no refusal.
    pub fn number(self) -> u32
        ensures { result ≡ number_of self }
    {
        match self {
            DefinitionFault::NoMemory => 0,
            DefinitionFault::Unknown { .. } => 42,
            DefinitionFault::NotAType { .. } => 50,
            DefinitionFault::Undeclared => 42,
            DefinitionFault::Differs => 50,
        }
    }
}

impl From<AllocError> for DefinitionFault {
    ghost use Rattle.std.specs.Prelude.{◌≡◌};
    ghost use Rattle.limbo_bodies.specs.declared.fault.DefinitionFault.TheVariants.{NoMemory};

    ghost from_gives = { λ _ e. e ≡ NoMemory };

    fn from(_error: AllocError) -> DefinitionFault {
        DefinitionFault::NoMemory
    }
}

impl<T: Drop> From<AllocFailed<T>> for DefinitionFault {
    ghost use Rattle.std.specs.Prelude.{◌≡◌};
    ghost use Rattle.limbo_bodies.specs.declared.fault.DefinitionFault.TheVariants.{NoMemory};

    ghost from_gives = { λ _ e. e ≡ NoMemory };

    fn from(_error: AllocFailed<T>) -> DefinitionFault {
        DefinitionFault::NoMemory
    }
}
