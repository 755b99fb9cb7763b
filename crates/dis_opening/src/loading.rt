//! Where items go.

ghost use Rattle.std.specs.Prelude.{◌≡◌, ◌+◌, pos, IfErr, IfOk};
ghost use Rattle.dis_opening.specs.declared.fault.StartFault.TheVariants.{NoMemory};

use crate::fault::StartFault;
use dis_places::{Memory, Ref, Word};

/// A block, and the byte of it from which offsets count.
#[derive(Clone, Copy)]
pub(crate) struct Base {
    pub block: Ref,
    pub from: u64,
}

impl Base {
    /// The byte of an offset. No memory has bytes whose number has more than 63 bits.
    pub fn byte(self, offset: u64) -> Result<i64, StartFault>
        ensures byte { IfOk result (λ at. at ≡ pos (self.from + offset)) }
        ensures fault { IfErr result (λ fault. fault ≡ NoMemory) }
    {
        let Some(at) = self.from.checked_add(offset) else {
            return Err(StartFault::NoMemory);
        };
        match i64::try_from(at) {
            Ok(at) => Ok(at),
            Err(_) => Err(StartFault::NoMemory),
        }
    }
}

/// Memory while items are put in: where they go, and where they went before each array that was entered, the latest last.
#[derive(Drop)]
pub(crate) struct Loading {
    pub memory: Memory,
    pub here: Base,
    pub back: Vec<Base>,
    /// The words over which references were put: what they refer to is held until all items are in.
    pub over: Vec<Word>,
}
