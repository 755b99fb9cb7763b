ghost use Rattle.std.specs.Prelude.{◌≡◌};
ghost use Rattle.limbo_lexer.specs.Refusals.{number_of};

use inf_text::{Span, TextFault};
use std::alloc::{AllocError, AllocFailed};

/// Why a source has no tokens.
#[derive(Clone, Copy, PartialEq, Eq, Debug)]
pub enum LexFault {
    /// Want of memory.
    NoMemory,
    /// Refusal 1: the source isn't well-formed UTF-8. The first sequence that isn't begins at byte `at`.
    BadUtf8 { at: usize },
    /// Refusal 20: no token begins here, or a digit string meets `.` and a digit.
    BadChar(Span),
    /// Refusal 21: a constant has an escape that isn't listed, or one that names a surrogate.
    BadEscape(Span),
    /// Refusal 22: a number is 2^64 or more, or a decimal above 9223372036854775807.
    NumberTooWide(Span),
    /// Refusal 23: a string or character constant isn't closed on its line.
    Unclosed(Span),
    /// Refusal 24: the source has more than 1,048,576 bytes.
    SourceTooLong,
}

impl LexFault {
    /// The number under which it is told; 0 for want of memory, which is no refusal.
    pub fn number(self) -> u32
        ensures { result ≡ number_of self }
    {
        match self {
            LexFault::NoMemory => 0,
            LexFault::BadUtf8 { .. } => 1,
            LexFault::BadChar(_) => 20,
            LexFault::BadEscape(_) => 21,
            LexFault::NumberTooWide(_) => 22,
            LexFault::Unclosed(_) => 23,
            LexFault::SourceTooLong => 24,
        }
    }
}

impl From<TextFault> for LexFault {
    ghost use Rattle.std.specs.Prelude.{◌≡◌};
    ghost use Rattle.limbo_lexer.specs.Causes.{text_fault};

    ghost from_gives = { λ fault e. e ≡ text_fault fault };

    fn from(fault: TextFault) -> LexFault {
        match fault {
            TextFault::NoMemory => LexFault::NoMemory,
            TextFault::BadUtf8 { at } => LexFault::BadUtf8 { at },
        }
    }
}

impl<T: Drop> From<AllocFailed<T>> for LexFault {
    ghost use Rattle.std.specs.Prelude.{◌≡◌};
    ghost use Rattle.limbo_lexer.specs.declared.fault.LexFault.TheVariants.{NoMemory};

    ghost from_gives = { λ _ e. e ≡ NoMemory };

    fn from(_error: AllocFailed<T>) -> LexFault {
        LexFault::NoMemory
    }
}

/// What is wrong at a piece of a text.
#[derive(Clone, Copy, PartialEq, Eq, Debug)]
pub enum Cause {
    NoMemory,
    BadChar,
    BadEscape,
    NumberTooWide,
    Unclosed,
}

/// What is wrong, and where: `left` characters of the text stand from there on, and `len` of them are wrong.
#[derive(Clone, Copy, Debug)]
pub struct Fault {
    pub cause: Cause,
    pub left: usize,
    pub len: usize,
}

impl From<AllocError> for Fault {
    ghost use Rattle.std.specs.Prelude.{◌≡◌};
    ghost use Rattle.limbo_lexer.specs.declared.fault.Cause.TheVariants.{NoMemory};

    ghost from_gives = { λ _ e. e.cause ≡ NoMemory };

    fn from(_error: AllocError) -> Fault {
        Fault {
            cause: Cause::NoMemory,
            left: 0,
            len: 0,
        }
    }
}

impl<T: Drop> From<AllocFailed<T>> for Fault {
    ghost use Rattle.std.specs.Prelude.{◌≡◌};
    ghost use Rattle.limbo_lexer.specs.declared.fault.Cause.TheVariants.{NoMemory};

    ghost from_gives = { λ _ e. e.cause ≡ NoMemory };

    fn from(_error: AllocFailed<T>) -> Fault {
        Fault {
            cause: Cause::NoMemory,
            left: 0,
            len: 0,
        }
    }
}

/// The fault at the front of what is left of a text.
pub fn fault_at(cause: Cause, left: &[char], len: usize) -> Fault
    ensures { result.cause ≡ cause }
{
    Fault {
        cause,
        left: left.len(),
        len,
    }
}

/// The fault at the front of what is left of a text, up to this rest.
pub fn fault_before(cause: Cause, left: &[char], rest: &[char]) -> Fault
    ensures { result.cause ≡ cause }
{
    fault_at(cause, left, left.len().saturating_sub(rest.len()))
}

/// The fault of a constant that begins at the front of what is left of a text. A bad escape keeps its own place.
pub fn fault_of_constant(fault: Fault, left: &[char]) -> Fault
    ensures { result.cause ≡ fault.cause }
{
    match fault.cause {
        Cause::BadEscape => fault,
        cause => fault_at(cause, left, left.len().saturating_sub(fault.left)),
    }
}
