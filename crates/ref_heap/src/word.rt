ghost use Rattle.std.specs.Prelude.{◌≡◌};
ghost use Rattle.std.specs.Option.{option_map};
ghost use Rattle.ref_heap.specs.Words.{cell_of, name_of, is_reference as is_reference_of};

/// A reference to a block: the slot where it lies, and its serial, which no other block ever has.
#[derive(Clone, Copy, Debug, PartialEq, Eq)]
pub struct Ref {
    pub slot: usize,
    pub serial: u64,
}

/// What an address points into: a block, or the frame of this serial.
#[derive(Clone, Copy, Debug, PartialEq, Eq)]
pub enum Place {
    Block(Ref),
    Frame(u64),
}

/// A word of memory: a plain one of 32 bits, a reference word, which may be nil, or an address, which stands in a plain
/// word and is counted nowhere.
#[derive(Clone, Copy, Debug, PartialEq, Eq)]
pub enum Word {
    Plain(u32),
    Refer(Option<Ref>),
    Address { place: Place, at: u32 },
}

impl Word {
    /// The reference that the word holds, if it holds one.
    pub fn reference(&self) -> Option<Ref>
        ensures { option_map (λ r. r.serial) result ≡ name_of (cell_of self.now) }
    {
        match self {
            Word::Refer(r) => *r,
            Word::Plain(_) => None,
            Word::Address { place, at } => match place {
                Place::Block(_) => None,
                Place::Frame(_) => None,
            },
        }
    }

    /// Whether it is a reference word.
    pub fn is_reference(&self) -> bool
        ensures { result ≡ is_reference_of (cell_of self.now) }
    {
        match self {
            Word::Refer(_) => true,
            Word::Plain(_) => false,
            Word::Address { place, at } => match place {
                Place::Block(_) => false,
                Place::Frame(_) => false,
            },
        }
    }
}
