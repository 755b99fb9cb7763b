use dis_places::{Fault, Halt};
use std::alloc::{AllocError, AllocFailed};

/// Why a machine can't begin.
#[derive(Clone, Copy, PartialEq, Eq, Debug)]
pub enum StartFault {
    /// Want of memory.
    NoMemory,
    /// The object lacks a type that it names, or has an item that can't be put where it says.
    Malformed,
}

impl<T: Drop> From<AllocFailed<T>> for StartFault {
    ghost use Rattle.std.specs.Prelude.{◌≡◌};
    ghost use Rattle.dis_opening.specs.declared.fault.StartFault.TheVariants.{NoMemory};

    ghost from_gives = { λ _ e. e ≡ NoMemory };

    fn from(_error: AllocFailed<T>) -> StartFault {
        StartFault::NoMemory
    }
}

impl From<AllocError> for StartFault {
    ghost use Rattle.std.specs.Prelude.{◌≡◌};
    ghost use Rattle.dis_opening.specs.declared.fault.StartFault.TheVariants.{NoMemory};

    ghost from_gives = { λ _ e. e ≡ NoMemory };

    fn from(_error: AllocError) -> StartFault {
        StartFault::NoMemory
    }
}

impl From<Fault> for StartFault {
    ghost use Rattle.std.specs.Prelude.{◌≡◌};
    ghost use Rattle.dis_opening.specs.declared.fault.StartFault.TheVariants.{Malformed};

    ghost from_gives = { λ _ e. e ≡ Malformed };

    fn from(_fault: Fault) -> StartFault {
        StartFault::Malformed
    }
}

impl From<Halt> for StartFault {
    ghost use Rattle.std.specs.Prelude.{◌≡◌};
    ghost use Rattle.dis_opening.specs.Starting.{refused_as};

    ghost from_gives = { λ halt e. e ≡ refused_as halt };

    fn from(halt: Halt) -> StartFault {
        match halt {
            Halt::NoMemory => StartFault::NoMemory,
            Halt::Fault(_) => StartFault::Malformed,
            Halt::Raises(_) => StartFault::Malformed,
        }
    }
}
