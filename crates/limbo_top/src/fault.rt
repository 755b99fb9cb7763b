use inf_text::{Span, Text};
use std::alloc::{AllocError, AllocFailed};

/// Why a source has no top level. A refusal has the path of the text, and where in it.
#[derive(Clone, Copy)]
pub enum TopFault<'a> {
    /// Want of memory.
    NoMemory,
    /// Refusal 41: the name that stands there is declared before it.
    Twice { path: &'a Text, at: Span },
    /// Refusal 42: the implemented module isn't declared.
    Unknown,
}

impl<'a> From<AllocError> for TopFault<'a> {
    ghost use Rattle.std.specs.Prelude.{◌≡◌};
    ghost use Rattle.limbo_top.specs.declared.fault.TopFault.TheVariants.{NoMemory};

    ghost from_gives = { λ _ e. e ≡ NoMemory };

    fn from(_error: AllocError) -> TopFault<'a> {
        TopFault::NoMemory
    }
}

impl<'a, T: Drop> From<AllocFailed<T>> for TopFault<'a> {
    ghost use Rattle.std.specs.Prelude.{◌≡◌};
    ghost use Rattle.limbo_top.specs.declared.fault.TopFault.TheVariants.{NoMemory};

    ghost from_gives = { λ _ e. e ≡ NoMemory };

    fn from(_error: AllocFailed<T>) -> TopFault<'a> {
        TopFault::NoMemory
    }
}
