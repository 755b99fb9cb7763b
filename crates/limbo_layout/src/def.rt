use inf_text::Text;
use limbo_types::Ty;
use std::alloc::{AllocError, AllocFailed};

/// A field of an adt or of a variant.
#[derive(Drop)]
pub struct Field {
    pub name: Text,
    pub ty: Ty,
}

/// A variant of a pick adt, with its own fields. Its number is its place in the adt.
#[derive(Drop)]
pub struct Variant {
    pub name: Text,
    pub fields: Vec<Field>,
}

/// An adt: its fields, the common ones of a pick adt, and its variants, none where it is no pick adt. Its number is its place
/// in the list of adts.
#[derive(Drop)]
pub struct AdtDef {
    pub name: Text,
    pub fields: Vec<Field>,
    pub picks: Vec<Variant>,
}

/// Why a type has no layout.
#[derive(Clone, Copy, PartialEq, Eq, Debug)]
pub enum LayoutFault {
    /// Want of memory.
    NoMemory,
    /// It takes more than 65,536 bytes.
    TooLarge,
}

impl From<AllocError> for LayoutFault {
    ghost use Rattle.std.specs.Prelude.{◌≡◌};
    ghost use Rattle.limbo_layout.specs.declared.def.LayoutFault.TheVariants.{NoMemory};

    ghost from_gives = { λ _ e. e ≡ NoMemory };

    fn from(_error: AllocError) -> LayoutFault {
        LayoutFault::NoMemory
    }
}

impl<T: Drop> From<AllocFailed<T>> for LayoutFault {
    ghost use Rattle.std.specs.Prelude.{◌≡◌};
    ghost use Rattle.limbo_layout.specs.declared.def.LayoutFault.TheVariants.{NoMemory};

    ghost from_gives = { λ _ e. e ≡ NoMemory };

    fn from(_error: AllocFailed<T>) -> LayoutFault {
        LayoutFault::NoMemory
    }
}

/// Why adts have no layouts.
#[derive(Clone, Copy, PartialEq, Eq, Debug)]
pub enum AdtsFault {
    /// Want of memory.
    NoMemory,
    /// This one holds itself as a value, through adts and tuples, or takes more than 65,536 bytes.
    TooLarge {
        /// The adt's number.
        adt: u32,
    },
}

impl From<AllocError> for AdtsFault {
    ghost use Rattle.std.specs.Prelude.{◌≡◌};
    ghost use Rattle.limbo_layout.specs.declared.def.AdtsFault.TheVariants.{NoMemory};

    ghost from_gives = { λ _ e. e ≡ NoMemory };

    fn from(_error: AllocError) -> AdtsFault {
        AdtsFault::NoMemory
    }
}

impl<T: Drop> From<AllocFailed<T>> for AdtsFault {
    ghost use Rattle.std.specs.Prelude.{◌≡◌};
    ghost use Rattle.limbo_layout.specs.declared.def.AdtsFault.TheVariants.{NoMemory};

    ghost from_gives = { λ _ e. e ≡ NoMemory };

    fn from(_error: AllocFailed<T>) -> AdtsFault {
        AdtsFault::NoMemory
    }
}
