ghost use Rattle.std.specs.Prelude.{◌≡◌};
ghost use Rattle.limbo_reading.specs.declared.fault.ReadError.TheVariants.{NoMemory};

use std::alloc::{AllocError, AllocFailed};

/// Why tokens have no tree, and how many of them are left from where that was met on.
#[derive(Clone, Copy, PartialEq, Eq, Debug)]
pub enum Fault {
    /// No alternative of the grammar goes on here.
    Syntax { left: usize },
    /// The tree would nest too deep.
    TooDeep { left: usize },
}

/// Why a reader gives no tree.
#[derive(Clone, Copy, PartialEq, Eq, Debug)]
pub enum ReadError {
    /// Want of memory.
    NoMemory,
    /// The tokens have none.
    Fault { fault: Fault },
}

impl From<AllocError> for ReadError {
    ghost from_gives = { λ _ e. e ≡ NoMemory };

    fn from(_error: AllocError) -> ReadError {
        ReadError::NoMemory
    }
}

impl<T: Drop> From<AllocFailed<T>> for ReadError {
    ghost from_gives = { λ _ e. e ≡ NoMemory };

    fn from(_error: AllocFailed<T>) -> ReadError {
        ReadError::NoMemory
    }
}
