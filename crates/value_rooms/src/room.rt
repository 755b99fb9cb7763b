//! The room of a value, as it grows part by part.

ghost use Rattle.std.specs.Prelude.{◌≡◌, [], ◌+◌, ◌<◌, ◌≤◌, ◌⊎◌, max, OnOk, IfSome, IfNone};
ghost use Rattle.std.specs.Int.{next_multiple_of};
ghost use Rattle.limbo_layout.specs.Layout as layout;
ghost use Rattle.limbo_layout.specs.Layout.{limit, nothing, number, reference};
ghost use Rattle.limbo_layout.specs.Laying.{AllBelow};
ghost use Rattle.value_rooms.specs.Cut.{behind, lost, most, rounded};

use std::alloc::{AllocError, Global};
use std::marker::Model;

/// The most bytes that a type may take.
pub const LIMIT: u32 = 65_536;

/// The size that is told of what takes more.
pub(crate) const MOST: u32 = LIMIT + 1;

/// The room that a value takes.
#[derive(Drop)]
pub struct Room {
    // In bytes.
    size: u32,
    // What its place is a multiple of.
    align: u32,
    // The offsets of its words that refer, rising.
    references: Vec<u32>,
}

impl Model for Room {
    ghost use Rattle.limbo_layout.specs.Layout.{Room};

    ghost Value = { Room };

    ghost use Rattle.value_rooms.specs.Seen.{room_of, IsSound};

    ghost view = { room_of };

    ghost invariant = { IsSound };
}

impl Room {
    /// No room at all: what a type without parts takes.
    pub(crate) fn new(alloc: Global) -> Room
        ensures { result ≡ nothing }
    {
        Room {
            size: 0,
            align: 1,
            references: Vec::new(alloc),
        }
    }

    /// Its size in bytes.
    pub fn size(&self) -> u32
        ensures value { result ≡ self.now.size }
        ensures within { result ≤ most }
    {
        self.size
    }

    /// What its place is a multiple of: 1, 4 or 8.
    pub fn align(&self) -> u32
        ensures value { result ≡ self.now.align }
        ensures number { (result ≡ 1) ⊎ ((result ≡ 4) ⊎ (result ≡ 8)) }
    {
        self.align
    }

    /// The offsets of its words that refer.
    pub fn references(&self) -> &[u32]
        ensures offsets { result.now ≡ self.now.references }
        ensures inside { AllBelow self.now.size result.now }
    {
        &self.references
    }

    // Tells no more than that it is too large.
    fn lose(&mut self)
        ensures { self.new ≡ lost self.old.align }
    {
        self.size = MOST;
        self.references.clear();
    }

    // Makes place for a part behind what is there, and answers its offset, where the whole isn't too large.
    fn make_place(&mut self, size: u32, align: u32) -> Option<u32>
        requires size { size ≤ most }
        requires align { (align ≡ 1) ⊎ ((align ≡ 4) ⊎ (align ≡ 8)) }
        ensures at { IfSome result (λ at. at ≡ next_multiple_of self.old.size align) }
        ensures fits { IfSome result (λ at. at + size ≤ limit) }
        ensures some { IfSome result (λ at. self.new ≡ layout.behind self.old (record { size = size; align = align; references = [] })) }
        ensures large { IfNone result (limit < next_multiple_of self.old.size align + size) }
        ensures none { IfNone result (self.new ≡ lost (max self.old.align align)) }
    {
        let at = self.size.next_multiple_of(align);
        self.align = self.align.max(align);
        if at + size > LIMIT {
            self.lose();
            return None;
        }
        self.size = at + size;
        Some(at)
    }

    /// Puts a number of 1, 4 or 8 bytes behind what is there.
    pub(crate) fn put_number(&mut self, size: u32)
        requires { (size ≡ 1) ⊎ ((size ≡ 4) ⊎ (size ≡ 8)) }
        ensures { self.new ≡ behind self.old (number size) }
    {
        let _at = self.make_place(size, size);
    }

    /// Puts a reference behind what is there.
    pub(crate) fn put_reference(&mut self) -> Result<(), AllocError>
        ensures { OnOk result (self.new ≡ behind self.old reference) }
    {
        if let Some(at) = self.make_place(4, 4) {
            self.references.push(at)?;
        }
        Ok(())
    }

    /// Puts a part behind what is there.
    pub(crate) fn put(&mut self, part: &Room) -> Result<(), AllocError>
        ensures { OnOk result (self.new ≡ behind self.old part.now) }
    {
        if let Some(at) = self.make_place(part.size, part.align) {
            for offset in &part.references {
                self.references.push(at + *offset)?;
            }
        }
        Ok(())
    }

    /// Rounds the size up to a multiple of the alignment.
    pub(crate) fn round(&mut self)
        ensures { self.new ≡ rounded self.old }
    {
        let size = self.size.next_multiple_of(self.align);
        if size > LIMIT {
            self.lose();
        } else {
            self.size = size;
        }
    }
}
