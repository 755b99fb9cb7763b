ghost use Rattle.std.specs.Prelude.{◌≡◌};
ghost use Rattle.styx_msg.specs.declared.fault.StyxFault.TheVariants.{NoMemory};
ghost use Rattle.styx_msg.specs.Answers.{refusal_number};

use std::alloc::{AllocError, AllocFailed};

/// Why a message can't be read or written.
#[derive(Clone, Copy, Debug, PartialEq, Eq)]
pub enum StyxFault {
    /// Want of memory.
    NoMemory,
    /// Refusal 10: the stated size is below 7 or above 8,216.
    BadSize,
    /// Refusal 11: no message of this direction has the type.
    BadType,
    /// Refusal 12: the body isn't laid out as the type wants it, or has something left over.
    BadBody,
    /// Refusal 13: a text is longer than 65,535 bytes, a walk than 16 names or qids, or the message than 8,216 bytes.
    TooLong,
}

impl StyxFault {
    /// The refusal's number, or `None` for want of memory.
    pub fn number(self) -> Option<u8>
        ensures { result ≡ refusal_number self }
    {
        match self {
            StyxFault::NoMemory => None,
            StyxFault::BadSize => Some(10),
            StyxFault::BadType => Some(11),
            StyxFault::BadBody => Some(12),
            StyxFault::TooLong => Some(13),
        }
    }
}

impl From<AllocError> for StyxFault {
    ghost from_gives = { λ _ e. e ≡ NoMemory };

    fn from(_error: AllocError) -> StyxFault {
        StyxFault::NoMemory
    }
}

impl<T: Drop> From<AllocFailed<T>> for StyxFault {
    ghost from_gives = { λ _ e. e ≡ NoMemory };

    fn from(_error: AllocFailed<T>) -> StyxFault {
        StyxFault::NoMemory
    }
}
