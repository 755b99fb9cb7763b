//! Why the imports of a source are refused.

use std::alloc::{AllocError, AllocFailed};

/// Why the imports of a source are refused.
#[derive(Clone, Copy, PartialEq, Eq, Debug)]
pub enum ImportFault {
    /// Want of memory.
    NoMemory,
    /// The declaration of this number imports what isn't there: its source is no module, or the module has no such member.
    NotThere { number: u32 },
}

impl From<AllocError> for ImportFault {
    ghost use Rattle.std.specs.Prelude.{◌≡◌};
    ghost use Rattle.limbo_imports.specs.declared.fault.ImportFault.TheVariants.{NoMemory};

    ghost from_gives = { λ _ e. e ≡ NoMemory };

    fn from(_error: AllocError) -> ImportFault {
        ImportFault::NoMemory
    }
}

impl<T: Drop> From<AllocFailed<T>> for ImportFault {
    ghost use Rattle.std.specs.Prelude.{◌≡◌};
    ghost use Rattle.limbo_imports.specs.declared.fault.ImportFault.TheVariants.{NoMemory};

    ghost from_gives = { λ _ e. e ≡ NoMemory };

    fn from(_error: AllocFailed<T>) -> ImportFault {
        ImportFault::NoMemory
    }
}
