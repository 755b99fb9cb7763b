ghost use Rattle.std.specs.Prelude.{◌≡◌};
ghost use Rattle.limbo_declare.specs.Numbers.{number_of};

use inf_text::{Span, Text};
use std::alloc::AllocError;

/// Why a source declares nothing. A refusal has the path of the text, and where in it.
#[derive(Clone, Copy)]
pub enum NameFault<'a> {
    /// Want of memory.
    NoMemory,
    /// Refusal 41: the name that stands there is declared before it in the same scope, or the function is defined before it.
    Twice { path: &'a Text, at: Span },
    /// Refusal 42: the function whose name stands there is declared and not defined, or defined and not declared by its adt.
    Unknown { path: &'a Text, at: Span },
    /// Refusal 42: the implemented module isn't declared.
    NoModule,
    /// Refusal 43: what the name that stands there has is neither constant nor, for a variable, `nil`.
    NotConstant { path: &'a Text, at: Span },
}

impl<'a> NameFault<'a> {
    /// The number under which it is told; 0 for want of memory, which is no refusal.
    pub fn number(self) -> u32
        ensures { result ≡ number_of self.entry }
    {
        match self {
            NameFault::NoMemory => 0,
            NameFault::Twice { .. } => 41,
            NameFault::Unknown { .. } => 42,
            NameFault::NoModule => 42,
            NameFault::NotConstant { .. } => 43,
        }
    }
}

impl<'a> From<AllocError> for NameFault<'a> {
    ghost use Rattle.std.specs.Prelude.{◌≡◌};
    ghost use Rattle.limbo_declare.specs.declared.fault.NameFault.TheVariants.{NoMemory};

    ghost from_gives = { λ _ e. e ≡ NoMemory };

    fn from(_error: AllocError) -> NameFault<'a> {
        NameFault::NoMemory
    }
}
