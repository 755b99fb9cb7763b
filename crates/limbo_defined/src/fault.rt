use inf_text::{Span, Text};
use std::alloc::AllocError;

/// Why the functions of a source aren't defined as they are declared. A refusal has the path of the text, and where in it.
#[derive(Clone, Copy)]
pub enum DefinedFault<'a> {
    /// Want of memory.
    NoMemory,
    /// Refusal 41: the function whose name stands there is defined before it.
    Twice { path: &'a Text, at: Span },
    /// Refusal 42: the function that is declared there isn't defined.
    Undefined { path: &'a Text, at: Span },
    /// Refusal 42: no adt of that name declares the function that is defined there.
    Undeclared { path: &'a Text, at: Span },
}

impl<'a> From<AllocError> for DefinedFault<'a> {
    ghost use Rattle.std.specs.Prelude.{◌≡◌};
    ghost use Rattle.limbo_defined.specs.declared.fault.DefinedFault.TheVariants.{NoMemory};

    ghost from_gives = { λ _ e. e ≡ NoMemory };

    fn from(_error: AllocError) -> DefinedFault<'a> {
        DefinedFault::NoMemory
    }
}
