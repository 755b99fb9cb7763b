use inf_text::{Span, Text};
use std::alloc::{AllocError, AllocFailed};

/// Why a source and the texts that it includes are no row of declarations.
#[derive(Drop, Debug)]
pub enum IncludeFault {
    /// Want of memory.
    NoMemory,
    /// Refusal 40: an include names a text that isn't there. It stands at `at` in the text of this path.
    NoInclude { path: Text, at: Span },
    /// Refusal 41: an include names a text that declares something and is included already. It stands at `at` in the text of
    /// this path.
    Twice { path: Text, at: Span },
    /// Refusal 44: includes nest more than 16 deep.
    TooDeep,
}

impl From<AllocError> for IncludeFault {
    ghost use Rattle.std.specs.Prelude.{◌≡◌};
    ghost use Rattle.limbo_includes.specs.declared.fault.IncludeFault.TheVariants.{NoMemory};

    ghost from_gives = { λ _ e. e ≡ NoMemory };

    fn from(_error: AllocError) -> IncludeFault {
        IncludeFault::NoMemory
    }
}

impl<T: Drop> From<AllocFailed<T>> for IncludeFault {
    ghost use Rattle.std.specs.Prelude.{◌≡◌};
    ghost use Rattle.limbo_includes.specs.declared.fault.IncludeFault.TheVariants.{NoMemory};

    ghost from_gives = { λ _ e. e ≡ NoMemory };

    fn from(_error: AllocFailed<T>) -> IncludeFault {
        IncludeFault::NoMemory
    }
}
