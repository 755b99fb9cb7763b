ghost use Rattle.std.specs.Prelude.{◌≡◌};
ghost use Rattle.dis_format.specs.declared.fault.FileFault.TheVariants.{NoMemory};
ghost use Rattle.dis_format.specs.declared.fault.ReadFault.TheVariants.{NoMemory as Unread};
ghost use Rattle.dis_format.specs.Answers.{refusal_number, refused_at};

use std::alloc::{AllocError, AllocFailed};

/// What is wrong with a field of an object file.
#[derive(Clone, Copy)]
pub enum Cause {
    /// The bytes end inside the field.
    Short,
    /// The first number is that of no object file.
    Magic,
    /// The first number is that of a signed object file.
    Signed,
    /// The number is outside the field's limits.
    BadOperand,
    /// No operation has this opcode.
    BadOpcode,
    /// The types don't fit together.
    BadType,
    /// The initial data doesn't fit the types, or a text is no UTF-8.
    BadData,
    /// A function's pc or type isn't in the object.
    BadLink,
    /// Bytes stand behind the object.
    Trailing,
    /// A flag has no meaning.
    BadFlags,
}

/// A faulty field: what is wrong with it, and how many bytes are left from its first byte on.
#[derive(Clone, Copy)]
pub struct Refusal {
    pub cause: Cause,
    pub left: usize,
}

/// Why a field isn't read.
#[derive(Clone, Copy)]
pub enum ReadFault {
    /// Want of memory.
    NoMemory,
    /// The field is faulty.
    Refused(Refusal),
}

/// Why bytes are no object file, or an object can't be written. A place counts bytes from 0, and is that of the first
/// byte of the first faulty field.
#[derive(Clone, Copy, Debug)]
pub enum FileFault {
    /// Want of memory.
    NoMemory,
    /// Refusal 80: the bytes end inside the field.
    Short { at: usize },
    /// Refusal 81: the first number is that of no object file.
    Magic { at: usize },
    /// Refusal 82: the first number is that of a signed object file.
    Signed { at: usize },
    /// Refusal 83: the number is outside the field's limits.
    BadOperand { at: usize },
    /// Refusal 84: no operation has this opcode.
    BadOpcode { at: usize },
    /// Refusal 85: the types don't fit together.
    BadType { at: usize },
    /// Refusal 86: the initial data doesn't fit the types, or a text is no UTF-8.
    BadData { at: usize },
    /// Refusal 87: a function's pc or type isn't in the object.
    BadLink { at: usize },
    /// Refusal 88: bytes stand behind the object.
    Trailing { at: usize },
    /// Refusal 89: a flag has no meaning.
    BadFlags { at: usize },
}

impl FileFault {
    /// The refusal of a field at this place.
    pub fn of(cause: Cause, at: usize) -> FileFault
        ensures { result ≡ refused_at cause at }
    {
        match cause {
            Cause::Short => FileFault::Short { at },
            Cause::Magic => FileFault::Magic { at },
            Cause::Signed => FileFault::Signed { at },
            Cause::BadOperand => FileFault::BadOperand { at },
            Cause::BadOpcode => FileFault::BadOpcode { at },
            Cause::BadType => FileFault::BadType { at },
            Cause::BadData => FileFault::BadData { at },
            Cause::BadLink => FileFault::BadLink { at },
            Cause::Trailing => FileFault::Trailing { at },
            Cause::BadFlags => FileFault::BadFlags { at },
        }
    }

    /// The refusal's number and the place of the faulty field, or `None` for want of memory.
    pub fn number(self) -> Option<(u8, usize)>
        ensures { result ≡ refusal_number self }
    {
        match self {
            FileFault::NoMemory => None,
            FileFault::Short { at } => Some((80, at)),
            FileFault::Magic { at } => Some((81, at)),
            FileFault::Signed { at } => Some((82, at)),
            FileFault::BadOperand { at } => Some((83, at)),
            FileFault::BadOpcode { at } => Some((84, at)),
            FileFault::BadType { at } => Some((85, at)),
            FileFault::BadData { at } => Some((86, at)),
            FileFault::BadLink { at } => Some((87, at)),
            FileFault::Trailing { at } => Some((88, at)),
            FileFault::BadFlags { at } => Some((89, at)),
        }
    }
}

impl From<AllocError> for ReadFault {
    ghost from_gives = { λ _ e. e ≡ Unread };

    fn from(_error: AllocError) -> ReadFault {
        ReadFault::NoMemory
    }
}

impl<T: Drop> From<AllocFailed<T>> for ReadFault {
    ghost from_gives = { λ _ e. e ≡ Unread };

    fn from(_error: AllocFailed<T>) -> ReadFault {
        ReadFault::NoMemory
    }
}

impl From<AllocError> for FileFault {
    ghost from_gives = { λ _ e. e ≡ NoMemory };

    fn from(_error: AllocError) -> FileFault {
        FileFault::NoMemory
    }
}

impl<T: Drop> From<AllocFailed<T>> for FileFault {
    ghost from_gives = { λ _ e. e ≡ NoMemory };

    fn from(_error: AllocFailed<T>) -> FileFault {
        FileFault::NoMemory
    }
}
