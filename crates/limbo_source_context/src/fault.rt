//! Why a source has no context.

ghost use Rattle.std.specs.Prelude.{◌≡◌, ℕ, List};
ghost use Rattle.limbo_entries.specs.declared.entry.Entry as code_entry;
ghost use Rattle.limbo_headers.specs.Refusals.{FailsHeading};
ghost use Rattle.limbo_source_context.specs.SourceContext.{Fails};
ghost use Rattle.limbo_source_context.specs.Numbers.{number_of};

use inf_text::Span;
use limbo_type_names::TypesFault;
use std::alloc::{AllocError, AllocFailed};

/// Why a source has no context. A declaration is told by its number.
#[derive(Clone, Copy, PartialEq, Eq, Debug)]
pub enum ContextFault {
    /// Want of memory.
    NoMemory,
    /// Refusal 42: a name in a type that the declaration writes isn't there.
    Unknown { number: u32, at: Span },
    /// Refusal 50: a name in a type that it writes is no type, or behind `ref` neither an adt nor a variant.
    NotAType { number: u32, at: Span },
    /// Refusal 55: the adt of this number holds itself as a value, or takes too many bytes.
    TooLarge { adt: u32 },
    /// Refusal 50: the variable is declared by a value that says no type.
    NoType { number: u32 },
    /// Refusal 50: it imports a name from what is no module.
    NotThere { number: u32 },
    /// Refusal 50: the variable begins with a value that isn't of its type.
    BadInitial { number: u32 },
}

impl ContextFault {
    /// The number under which it is told; 0 for want of memory, which is no refusal.
    pub fn number(self) -> u32
        ensures { result ≡ number_of self }
    {
        match self {
            ContextFault::NoMemory => 0,
            ContextFault::Unknown { .. } => 42,
            ContextFault::NotAType { .. } => 50,
            ContextFault::TooLarge { .. } => 55,
            ContextFault::NoType { .. } => 50,
            ContextFault::NotThere { .. } => 50,
            ContextFault::BadInitial { .. } => 50,
        }
    }
}

impl From<AllocError> for ContextFault {
    ghost use Rattle.std.specs.Prelude.{◌≡◌};
    ghost use Rattle.limbo_source_context.specs.declared.fault.ContextFault.TheVariants.{NoMemory};

    ghost from_gives = { λ _ e. e ≡ NoMemory };

    fn from(_error: AllocError) -> ContextFault {
        ContextFault::NoMemory
    }
}

impl<T: Drop> From<AllocFailed<T>> for ContextFault {
    ghost use Rattle.std.specs.Prelude.{◌≡◌};
    ghost use Rattle.limbo_source_context.specs.declared.fault.ContextFault.TheVariants.{NoMemory};

    ghost from_gives = { λ _ e. e ≡ NoMemory };

    fn from(_error: AllocFailed<T>) -> ContextFault {
        ContextFault::NoMemory
    }
}

/// The refusal of a type that a declaration writes. Those of types that are declared by `type` were told before.
pub(crate) fn of_types(fault: TypesFault) -> ContextFault
    ensures { (all : List code_entry.Entry) (m : ℕ) → FailsHeading all m fault → Fails all m result }
{
    match fault {
        TypesFault::NoMemory => ContextFault::NoMemory,
        TypesFault::Unknown { number, at } => ContextFault::Unknown { number, at },
        TypesFault::NotAType { number, at } => ContextFault::NotAType { number, at },
        TypesFault::TypeTooLarge { .. } => ContextFault::NoMemory,
    }
}
