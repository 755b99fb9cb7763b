use std::alloc::AllocError;

/// Why a module isn't sized.
#[derive(Clone, Copy, PartialEq, Eq, Debug)]
pub enum SizeFault {
    /// Want of memory.
    NoMemory,
    /// A function's frame, or the variables of the module, pass 65,536 bytes.
    FrameTooLarge,
}

impl From<AllocError> for SizeFault {
    ghost use Rattle.std.specs.Prelude.{◌≡◌};
    ghost use Rattle.core_sizing.specs.declared.fault.SizeFault.TheVariants.{NoMemory};

    ghost from_gives = { λ _ e. e ≡ NoMemory };

    fn from(_error: AllocError) -> SizeFault {
        SizeFault::NoMemory
    }
}
