ghost use Rattle.std.specs.Prelude.{◌≡◌};
ghost use Rattle.dis_places.specs.Words.{number_of, raised_text};

use limbo_values::Raised;
use std::alloc::{AllocError, AllocFailed};

/// What is wrong with an object that an instruction runs into.
#[derive(Clone, Copy)]
pub enum Fault {
    /// 110: an operand, a type or a table outside the object, or a word of another kind than is asked for.
    TypeCheck,
    /// 111: a place in the code that isn't there.
    BadJump,
    /// 112: the address of a block or frame that isn't there.
    DeadAddress,
}

impl Fault {
    /// Its number.
    pub fn number(self) -> u32
        ensures { result ≡ number_of self }
    {
        match self {
            Fault::TypeCheck => 110,
            Fault::BadJump => 111,
            Fault::DeadAddress => 112,
        }
    }
}

/// An exception that an instruction raises (Limbo Language Reference, exceptions).
#[derive(Clone, Copy)]
pub enum Raise {
    /// What nil has none of is asked for.
    Nil,
    /// An array of fewer than no elements.
    Negative,
    /// An array of too many bytes.
    Large,
    /// A function of a module that isn't loaded.
    NotLoaded,
    /// A format that doesn't fit its call's frame.
    BadFormat,
    /// What an operation on values raises.
    Value(Raised),
}

impl Raise {
    /// The exception's text, as a handler sees it.
    pub fn text(self) -> &'static str
        ensures { result.now ≡ raised_text self }
    {
        match self {
            Raise::Nil => "dereference of nil",
            Raise::Negative => "negative array size",
            Raise::Large => "array too large",
            Raise::NotLoaded => "module not loaded",
            Raise::BadFormat => "bad format",
            Raise::Value(raised) => raised.text(),
        }
    }
}

/// Why an access or an instruction gives nothing.
#[derive(Clone, Copy)]
pub enum Halt {
    NoMemory,
    Fault(Fault),
    /// An exception is raised instead.
    Raises(Raise),
}

impl From<Fault> for Halt {
    ghost use Rattle.std.specs.Prelude.{◌≡◌};
    ghost use Rattle.dis_places.specs.declared.fault.Halt.TheVariants as halt;

    ghost from_gives = { λ fault e. e ≡ halt.Fault fault };

    fn from(fault: Fault) -> Halt {
        Halt::Fault(fault)
    }
}

impl From<Raise> for Halt {
    ghost use Rattle.std.specs.Prelude.{◌≡◌};
    ghost use Rattle.dis_places.specs.declared.fault.Halt.TheVariants as halt;

    ghost from_gives = { λ raise e. e ≡ halt.Raises raise };

    fn from(raise: Raise) -> Halt {
        Halt::Raises(raise)
    }
}

impl From<AllocError> for Halt {
    ghost use Rattle.std.specs.Prelude.{◌≡◌};
    ghost use Rattle.dis_places.specs.declared.fault.Halt.TheVariants.{NoMemory};

    ghost from_gives = { λ _ e. e ≡ NoMemory };

    fn from(_error: AllocError) -> Halt {
        Halt::NoMemory
    }
}

impl<T: Drop> From<AllocFailed<T>> for Halt {
    ghost use Rattle.std.specs.Prelude.{◌≡◌};
    ghost use Rattle.dis_places.specs.declared.fault.Halt.TheVariants.{NoMemory};

    ghost from_gives = { λ _ e. e ≡ NoMemory };

    fn from(_error: AllocFailed<T>) -> Halt {
        Halt::NoMemory
    }
}
