//! Faults of expressions where they stand.

ghost use Rattle.std.specs.Prelude.{◌≡◌, option_map};
ghost use Rattle.limbo_causes.specs.Causes as causes;
ghost use Rattle.limbo_causes.specs.declared.fault.Cause.TheVariants.{NoMemory, Refused};

use inf_text::Span;
use limbo_refusals::ExprFault;
use std::alloc::{AllocError, AllocFailed};

/// Why an expression has no typed tree.
#[derive(Drop)]
pub enum Cause {
    /// Want of memory, or of numbers.
    NoMemory,
    /// Refusal 41: the innermost scope declares the name already, or `*` stands twice.
    Twice,
    /// Refusal 42: a name isn't seen where it stands.
    Unknown,
    /// Refusal 43: an index isn't constant.
    NotConstant,
    /// Refusals 50 to 55: typed parts don't fit.
    Refused(ExprFault),
}

/// Why an expression has no typed tree, and where it fails.
#[derive(Drop)]
pub struct TypingFault {
    pub cause: Cause,
    /// Where the part stands that fails. A want of memory has no place.
    pub at: Span,
}

impl From<AllocError> for TypingFault {
    ghost use Rattle.std.specs.Prelude.{◌≡◌};
    ghost use Rattle.limbo_causes.specs.declared.fault.Cause.TheVariants.{NoMemory};

    ghost from_gives = { λ _ e. e.cause ≡ NoMemory };

    fn from(_error: AllocError) -> TypingFault {
        TypingFault::no_memory()
    }
}

impl<T: Drop> From<AllocFailed<T>> for TypingFault {
    ghost use Rattle.std.specs.Prelude.{◌≡◌};
    ghost use Rattle.limbo_causes.specs.declared.fault.Cause.TheVariants.{NoMemory};

    ghost from_gives = { λ _ e. e.cause ≡ NoMemory };

    fn from(_error: AllocFailed<T>) -> TypingFault {
        TypingFault::no_memory()
    }
}

impl TypingFault {
    /// Want of memory.
    pub fn no_memory() -> TypingFault
        ensures { result.cause ≡ NoMemory }
    {
        let nowhere = Span {
            line: 0,
            col: 0,
            len: 0,
        };
        TypingFault {
            cause: Cause::NoMemory,
            at: nowhere,
        }
    }

    /// A refusal of typed parts, at a place.
    pub fn refused(fault: ExprFault, at: Span) -> TypingFault
        ensures { result.cause ≡ Refused fault }
    {
        TypingFault {
            cause: Cause::Refused(fault),
            at,
        }
    }
}

impl From<AllocError> for Cause {
    ghost use Rattle.std.specs.Prelude.{◌≡◌};
    ghost use Rattle.limbo_causes.specs.declared.fault.Cause.TheVariants.{NoMemory};

    ghost from_gives = { λ _ e. e ≡ NoMemory };

    fn from(_error: AllocError) -> Cause {
        Cause::NoMemory
    }
}

impl<T: Drop> From<AllocFailed<T>> for Cause {
    ghost use Rattle.std.specs.Prelude.{◌≡◌};
    ghost use Rattle.limbo_causes.specs.declared.fault.Cause.TheVariants.{NoMemory};

    ghost from_gives = { λ _ e. e ≡ NoMemory };

    fn from(_error: AllocFailed<T>) -> Cause {
        Cause::NoMemory
    }
}

impl Cause {
    /// The refusal's number; none for want of memory.
    pub fn number(&self) -> Option<u32>
        ensures { result ≡ option_map causes.number_of (causes.told self.now) }
    {
        match self {
            Cause::NoMemory => None,
            Cause::Twice => Some(41),
            Cause::Unknown => Some(42),
            Cause::NotConstant => Some(43),
            Cause::Refused(fault) => fault.number(),
        }
    }
}
