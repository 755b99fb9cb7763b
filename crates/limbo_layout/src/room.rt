//! The room of a value, as it grows part by part.

ghost use Rattle.std.specs.Prelude.{◌≡◌, [], ◌+◌, ◌<◌, ◌≤◌, ◌⊎◌, OnOk, IfOk, IfErr};
ghost use Rattle.std.specs.Int.{next_multiple_of};
ghost use Rattle.limbo_layout.specs.Layout.{behind, rounded, nothing, number, reference, limit, map_of};
ghost use Rattle.limbo_layout.specs.declared.def.LayoutFault.TheVariants.{TooLarge};

use crate::def::LayoutFault;
use std::alloc::{AllocError, Global};
use std::marker::Model;

/// The most bytes that a type may take.
pub const LIMIT: u32 = 65536;

/// The room that a value takes.
#[derive(Drop)]
pub struct Room {
    // In bytes.
    size: u32,
    // What its place is a multiple of.
    align: u32,
    // The offsets of its words that refer, rising.
    references: Vec<u32>,
}

impl Model for Room {
    ghost use Rattle.limbo_layout.specs.Layout.{Room};

    ghost Value = { Room };

    ghost use Rattle.limbo_layout.specs.Seen.{room_of, IsSound};

    ghost view = { room_of };

    ghost invariant = { IsSound };
}

impl Room {
    /// No room at all: what a type without parts takes.
    pub(crate) fn new(alloc: Global) -> Room
        ensures { result ≡ nothing }
    {
        Room {
            size: 0,
            align: 1,
            references: Vec::new(alloc),
        }
    }

    /// Its size in bytes.
    pub(crate) fn size(&self) -> u32
        ensures value { result ≡ self.now.size }
        ensures within { result ≤ limit }
    {
        self.size
    }

    // Makes place for a part behind what is there, and answers its offset.
    fn make_place(&mut self, size: u32, align: u32) -> Result<u32, LayoutFault>
        requires size { size ≤ limit }
        requires align { (align ≡ 1) ⊎ ((align ≡ 4) ⊎ (align ≡ 8)) }
        ensures at { IfOk result (λ at. at ≡ next_multiple_of self.old.size align) }
        ensures ok { OnOk result (self.new ≡ behind self.old (record { size = size; align = align; references = [] })) }
        ensures too_large { IfErr result (λ e. e ≡ TooLarge → limit < next_multiple_of self.old.size align + size) }
    {
        let at = self.size.next_multiple_of(align);
        if at + size > LIMIT {
            return Err(LayoutFault::TooLarge);
        }
        self.size = at + size;
        self.align = self.align.max(align);
        Ok(at)
    }

    /// Puts a number of 1, 4 or 8 bytes behind what is there.
    pub(crate) fn put_number(&mut self, size: u32) -> Result<(), LayoutFault>
        requires { (size ≡ 1) ⊎ ((size ≡ 4) ⊎ (size ≡ 8)) }
        ensures ok { OnOk result (self.new ≡ behind self.old (number size)) }
        ensures too_large { IfErr result (λ e. e ≡ TooLarge → limit < (behind self.old (number size)).size) }
    {
        let _at = self.make_place(size, size)?;
        Ok(())
    }

    /// Puts a reference behind what is there.
    pub(crate) fn put_reference(&mut self) -> Result<(), LayoutFault>
        ensures ok { OnOk result (self.new ≡ behind self.old reference) }
        ensures too_large { IfErr result (λ e. e ≡ TooLarge → limit < (behind self.old reference).size) }
    {
        let at = self.make_place(4, 4)?;
        self.references.push(at)?;
        Ok(())
    }

    /// Puts a part behind what is there.
    pub(crate) fn put(&mut self, part: &Room) -> Result<(), LayoutFault>
        ensures ok { OnOk result (self.new ≡ behind self.old part.now) }
        ensures too_large { IfErr result (λ e. e ≡ TooLarge → limit < (behind self.old part.now).size) }
    {
        let at = self.make_place(part.size, part.align)?;
        for offset in &part.references {
            self.references.push(at + *offset)?;
        }
        Ok(())
    }

    /// Rounds the size up to a multiple of the alignment.
    pub(crate) fn round(&mut self)
        ensures whole { self.new ≡ rounded self.old }
        ensures fits { self.new.size ≤ limit }
    {
        self.size = self.size.next_multiple_of(self.align);
    }

    /// Which of its words refer, by their order.
    pub(crate) fn map(&self, alloc: Global) -> Result<Vec<bool>, AllocError>
        ensures { IfOk result (λ map. map.items ≡ map_of self.now) }
    {
        let mut map = vec![in alloc; false; (self.size as usize + 3) / 4]?;
        for offset in &self.references {
            map[*offset as usize / 4] = true;
        }
        Ok(map)
    }
}
