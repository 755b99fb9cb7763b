//! How much room a value takes, and how many references it has.

ghost use Rattle.std.specs.Prelude.{◌≡◌, ℕ, ◌≤◌, ◌⊎◌};
ghost use Rattle.value_extents.specs.Extent.{behind, empty, most, number, reference, rounded};

use std::marker::Model;

/// The most bytes that a type may take.
pub(crate) const LIMIT: u32 = 65_536;

// Neither bytes nor references are counted further than this.
const MOST: u32 = LIMIT + 1;

/// What is told of a value.
#[derive(Clone, Copy)]
pub(crate) struct Extent {
    // In bytes.
    size: u32,
    // What its place is a multiple of.
    align: u32,
    // How many references it has.
    count: u32,
}

impl Model for Extent {
    ghost use Rattle.value_extents.specs.Extent.{Extent};

    ghost Value = { Extent };

    ghost use Rattle.value_extents.specs.Made.{extent_of, inside_of, IsSmall};

    ghost view = { extent_of };

    ghost invariant = { IsSmall };

    ghost inverse = { inside_of };
}

impl Extent {
    /// A value without parts.
    pub(crate) fn empty() -> Extent
        ensures { result ≡ empty }
    {
        Extent {
            size: 0,
            align: 1,
            count: 0,
        }
    }

    /// A number of 1, 4 or 8 bytes.
    pub(crate) fn number(size: u32) -> Extent
        requires { (1 ≤ size) × (size ≤ 8) }
        ensures { result ≡ number size }
    {
        Extent {
            size,
            align: size,
            count: 0,
        }
    }

    /// A reference.
    pub(crate) fn reference() -> Extent
        ensures { result ≡ reference }
    {
        Extent {
            size: 4,
            align: 4,
            count: 1,
        }
    }

    /// How many bytes.
    pub(crate) fn size(self) -> u32
        ensures { result ≡ self.size }
    {
        self.size
    }

    /// What the place is a multiple of.
    pub(crate) fn align(self) -> u32
        ensures align { result ≡ self.align }
        ensures above { 1 ≤ result }
        ensures below { result ≤ 8 }
    {
        self.align
    }

    /// How many references.
    pub(crate) fn count(self) -> u32
        ensures count { result ≡ self.count }
        ensures within { result ≤ most }
    {
        self.count
    }

    /// This value, and a part more behind it.
    pub(crate) fn behind(self, part: Extent) -> Extent
        ensures { result ≡ behind self part }
    {
        let end = self.size.next_multiple_of(part.align) + part.size;
        Extent {
            size: end.min(MOST),
            align: self.align.max(part.align),
            count: (self.count + part.count).min(MOST),
        }
    }

    /// The whole of these parts.
    pub(crate) fn rounded(self) -> Extent
        ensures { result ≡ rounded self }
    {
        Extent {
            size: self.size.next_multiple_of(self.align).min(MOST),
            align: self.align,
            count: self.count,
        }
    }
}
