ghost use Rattle.std.specs.Prelude.{◌≡◌};
ghost use Rattle.limbo_values.specs.Operators.{text_of};

use std::alloc::AllocError;

/// An exception that an operation on values raises.
#[derive(Clone, Copy, PartialEq, Eq, Debug)]
pub enum Raised {
    /// The divisor of `/` or `%` is 0.
    ZeroDivide,
    /// An index or a slice is outside an array or a string.
    ArrayBounds,
    /// A string would have more than 16,777,216 characters.
    StringTooLong,
}

impl Raised {
    /// The exception's text, as a handler sees it.
    pub fn text(self) -> &'static str
        ensures { result.now ≡ text_of self }
    {
        match self {
            Raised::ZeroDivide => "zero divide",
            Raised::ArrayBounds => "array bounds error",
            Raised::StringTooLong => "string too long",
        }
    }
}

/// Why two strings weren't joined.
#[derive(Clone, Copy, PartialEq, Eq, Debug)]
pub enum JoinFault {
    /// Want of memory.
    NoMemory,
    /// The operation raises an exception.
    Raises(Raised),
}

impl From<AllocError> for JoinFault {
    ghost use Rattle.std.specs.Prelude.{◌≡◌};
    ghost use Rattle.limbo_values.specs.declared.raised.JoinFault.TheVariants.{NoMemory};

    ghost from_gives = { λ _ e. e ≡ NoMemory };

    fn from(_error: AllocError) -> JoinFault {
        JoinFault::NoMemory
    }
}
