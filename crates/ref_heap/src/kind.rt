ghost use Rattle.std.specs.Prelude.{◌≡◌};
ghost use Rattle.ref_heap.specs.Answers.{refusal_number};
ghost use Rattle.ref_heap.specs.Kinds.{fd_number as fd_number_of};

use std::alloc::AllocError;

/// What a block is.
#[derive(Clone, Copy)]
pub enum Kind {
    /// A record, as an adt or a value of more than one word.
    Record,
    /// A record of one word, for the open file of this number.
    Fd { number: u32 },
    /// A string: a word for each character.
    Text,
    /// An array of so many elements. What one of them is, a number tells that means what the heap's user says.
    Array { element: u32, length: u32 },
    /// So many elements of an array, which its word refers to, from one on.
    Slice { from: u32, length: u32 },
    /// A cell of a list: a reference word with the rest, then the words of the element.
    Cell,
    /// A channel; the number tells what its elements are.
    Channel { element: u32 },
    /// An instance of the module of this number.
    Instance { object: u32 },
    /// The built-in module, linked to the names of this number.
    Sys { names: u32 },
}

impl Kind {
    /// The number of the open file that a block is for.
    pub fn fd_number(&self) -> Option<u32>
        ensures { result ≡ fd_number_of self.now }
    {
        match self {
            Kind::Fd { number } => Some(*number),
            _ => None,
        }
    }
}

/// Why a call of the heap is refused.
#[derive(Clone, Copy, Debug, PartialEq, Eq)]
pub enum HeapFault {
    /// Want of memory.
    NoMemory,
    /// Refusal 90: the block isn't live.
    Dead,
    /// Refusal 91: a reference meets a plain word.
    NotPointer,
    /// Refusal 92: a plain value or an address meets a reference word.
    NotData,
    /// Refusal 93: the block has no such word.
    OutOfBlock,
    /// Refusal 94: no serial or no count is left.
    Full,
}

impl HeapFault {
    /// The refusal's number, or `None` for want of memory.
    pub fn number(self) -> Option<u8>
        ensures { result ≡ refusal_number self }
    {
        match self {
            HeapFault::NoMemory => None,
            HeapFault::Dead => Some(90),
            HeapFault::NotPointer => Some(91),
            HeapFault::NotData => Some(92),
            HeapFault::OutOfBlock => Some(93),
            HeapFault::Full => Some(94),
        }
    }
}

impl From<AllocError> for HeapFault {
    ghost use Rattle.std.specs.Prelude.{◌≡◌};
    ghost use Rattle.ref_heap.specs.declared.kind.HeapFault.TheVariants.{NoMemory};

    ghost from_gives = { λ _ e. e ≡ NoMemory };

    fn from(_error: AllocError) -> HeapFault {
        HeapFault::NoMemory
    }
}

/// Whether a drop freed the block.
#[derive(Clone, Copy, Debug, PartialEq, Eq)]
pub enum Freed {
    No,
    Yes,
}
