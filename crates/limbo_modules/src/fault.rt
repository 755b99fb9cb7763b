//! Why a source is no typed module.

ghost use Rattle.std.specs.Prelude.{◌≡◌};
ghost use Rattle.limbo_modules.specs.Faults.{Tells, number_told};

use inf_text::{Span, Text};
use limbo_stmt_values::Why;
use std::alloc::{AllocError, AllocFailed};

/// Why a source is no typed module.
#[derive(Drop)]
pub enum ModuleFault {
    /// Want of memory.
    NoMemory,
    /// A refusal, with the path of the text and where in it.
    Refused { why: Why, path: Text, at: Span },
}

// What is told of a place in the text at a path.
pub(crate) fn refused(path: &Text, why: Why, at: Span) -> ModuleFault
    ensures { Tells why result }
{
    match path.clone() {
        Ok(path) => ModuleFault::Refused { why, path, at },
        Err(_) => ModuleFault::NoMemory,
    }
}

impl ModuleFault {
    /// The number under which it is told; none for want of memory, which is no refusal.
    pub fn number(&self) -> Option<u32>
        ensures { result ≡ number_told self.now }
    {
        match self {
            ModuleFault::NoMemory => None,
            ModuleFault::Refused { why, .. } => match why {
                Why::Part(cause) => cause.number(),
                Why::CaseOverlap => Some(60),
                Why::BadAlt => Some(61),
                Why::BadPick => Some(62),
                Why::NoReturn => Some(63),
                Why::BadLabel => Some(64),
            },
        }
    }
}

impl From<AllocError> for ModuleFault {
    ghost use Rattle.std.specs.Prelude.{◌≡◌};
    ghost use Rattle.limbo_modules.specs.declared.fault.ModuleFault.TheVariants.{NoMemory};

    ghost from_gives = { λ _ e. e ≡ NoMemory };

    fn from(_error: AllocError) -> ModuleFault {
        ModuleFault::NoMemory
    }
}

impl<T: Drop> From<AllocFailed<T>> for ModuleFault {
    ghost use Rattle.std.specs.Prelude.{◌≡◌};
    ghost use Rattle.limbo_modules.specs.declared.fault.ModuleFault.TheVariants.{NoMemory};

    ghost from_gives = { λ _ e. e ≡ NoMemory };

    fn from(_error: AllocFailed<T>) -> ModuleFault {
        ModuleFault::NoMemory
    }
}
