//! What the code of a function sees, and its frame.

ghost use Rattle.std.specs.Prelude.{◌≡◌, ℕ, ◌+◌, ◌*◌, ◌<◌, ◌≤◌, ◌^◌, ◌++◌, map, IfOk, IfErr, OnOk};
ghost use Rattle.std.specs.List.{range_with_len};
ghost use Rattle.limbo_types.specs.View.{view_ty};
ghost use Rattle.limbo_layout.specs.Layout.{limit};
ghost use Rattle.limbo_layout.specs.View.{view_defs};
ghost use Rattle.limbo_layout.specs.declared.def.LayoutFault.TheVariants.{TooLarge};
ghost use Rattle.value_frames.specs.Frames.{frame_bytes, frame_references, linkage_bytes, number_place, reference_place, row_of, slots_place, spare_place, variable_place, within, within_row};
ghost use Rattle.value_heaps.specs.Blocks.{globals_place};
ghost use Rattle.value_rooms.specs.Forms.{view_form};
ghost use Rattle.value_code.specs.Operands as operands;

use dis_isa::{Middle, Operand};
use limbo_layout::LayoutFault;
use limbo_types::Ty;
use std::alloc::{AllocError, Global};
use value_rooms::{Form, Rooms, form_of};

// The linkage of a frame, in bytes.
const LINKAGE: u32 = 32;

// Where a number on its way stands.
const PASSING: i32 = 20;

// Where the variables begin in a module's data.
const GLOBALS: u32 = 16;

/// What the code of a function sees: the rooms of the module's adts, the types of its variables, and those of the function's own.
#[derive(Drop)]
pub struct Scene<'a> {
    pub rooms: &'a Rooms<'a>,
    pub globals: &'a [Ty],
    pub variables: &'a [Ty],
    // Where the word stands that refers to what is on its way, behind the variables.
    spare: u32,
    ghost placed: { spare ≡ spare_place (view_defs rooms.now) (map view_ty variables.now) },
    ghost small: { spare ≤ 65568 },
}

impl<'a> Scene<'a> {
    ghost use Rattle.value_operands.specs.Seen.{scene_of};

    /// What the code of a function with these variables sees.
    ///
    /// # Errors
    /// Want of memory. `TooLarge` exactly where its variables take more than 65,536 bytes.
    pub fn new(
        alloc: Global,
        rooms: &'a Rooms<'a>,
        globals: &'a [Ty],
        variables: &'a [Ty],
    ) -> Result<Scene<'a>, LayoutFault>
        ensures sees { IfOk result (λ s. scene_of s ≡ record { adts = view_defs rooms.now; globals = map view_ty globals.now; variables = map view_ty variables.now }) }
        ensures too_large { IfErr result (λ e. e ≡ TooLarge → limit < (row_of (view_defs rooms.now) (map view_ty variables.now)).size) }
    {
        let row = rooms.row(alloc, variables)?;
        Ok(Scene {
            rooms,
            globals,
            variables,
            spare: (LINKAGE + row.size()).next_multiple_of(4),
        })
    }

    /// Where the word stands that refers to what is on its way.
    pub fn spare_place(&self) -> u32
        ensures place { result ≡ spare_place (scene_of self.now).adts (scene_of self.now).variables }
        ensures small { result ≤ 65568 }
    {
        self.spare
    }

    /// Where the slots begin.
    pub fn slots_place(&self) -> u32
        ensures place { result ≡ slots_place (scene_of self.now).adts (scene_of self.now).variables }
        ensures small { result ≤ 65576 }
    {
        (self.spare + 4).next_multiple_of(8)
    }

    /// Where the number of a slot stands.
    pub fn number_place(&self, slot: u32) -> u32
        requires { slot < 2 ^ 27 }
        ensures place { result ≡ number_place (scene_of self.now).adts (scene_of self.now).variables slot }
        ensures small { result < 2 ^ 31 }
    {
        self.slots_place() + 8 * slot
    }

    /// Where the reference of a slot stands.
    pub fn reference_place(&self, slot: u32) -> u32
        requires { slot < 2 ^ 27 }
        ensures place { result ≡ reference_place (scene_of self.now).adts (scene_of self.now).variables slot }
        ensures small { result < 2 ^ 31 }
    {
        self.slots_place() + 8 * slot + 4
    }

    /// The bytes of the frame, with so many slots.
    pub fn frame_bytes(&self, slots: u32) -> u32
        requires { slots < 2 ^ 27 }
        ensures bytes { result ≡ frame_bytes (scene_of self.now).adts (scene_of self.now).variables slots }
        ensures small { result < 2 ^ 31 }
    {
        self.slots_place() + 8 * slots
    }

    /// The number of a slot.
    pub fn number(&self, slot: u32) -> Operand
        requires { slot < 2 ^ 27 }
        ensures { result ≡ operands.number (scene_of self.now) slot }
    {
        Operand::Fp(self.number_place(slot) as i32)
    }

    /// The number of a slot, as a middle.
    pub fn number_middle(&self, slot: u32) -> Middle
        requires { slot < 2 ^ 27 }
        ensures { result ≡ operands.number_middle (scene_of self.now) slot }
    {
        Middle::Fp(self.number_place(slot) as i32)
    }

    /// The reference of a slot.
    pub fn reference(&self, slot: u32) -> Operand
        requires { slot < 2 ^ 27 }
        ensures { result ≡ operands.reference (scene_of self.now) slot }
    {
        Operand::Fp(self.reference_place(slot) as i32)
    }

    /// The reference of a slot, as a middle.
    pub fn reference_middle(&self, slot: u32) -> Middle
        requires { slot < 2 ^ 27 }
        ensures { result ≡ operands.reference_middle (scene_of self.now) slot }
    {
        Middle::Fp(self.reference_place(slot) as i32)
    }

    /// A byte of a slot's record.
    pub fn in_box(&self, slot: u32, at: u32) -> Operand
        requires slot { slot < 2 ^ 27 }
        requires at { at < 2 ^ 31 }
        ensures { result ≡ operands.in_box (scene_of self.now) slot at }
    {
        Operand::IndFp {
            inner: self.reference_place(slot) as i32,
            outer: at as i32,
        }
    }

    // What stands in a slot in this form.
    fn by_form(&self, form: Form, slot: u32) -> Operand
        requires { slot < 2 ^ 27 }
        ensures { result ≡ operands.by_form (scene_of self.now) (view_form form) slot }
    {
        match form {
            Form::Nowhere => Operand::Fp(PASSING),
            Form::AsNumber => self.number(slot),
            Form::AsReference => self.reference(slot),
            Form::Boxed => self.in_box(slot, 0),
        }
    }

    /// The value of a slot, of a type.
    pub fn in_slot(&self, t: &Ty, slot: u32) -> Operand
        requires { slot < 2 ^ 27 }
        ensures { result ≡ operands.in_slot (scene_of self.now) (view_ty t.now) slot }
    {
        self.by_form(form_of(t), slot)
    }

    /// A part of the value of a slot, of a type, to which these numbers lead.
    ///
    /// # Errors
    /// Want of memory. `TooLarge` exactly where it stands behind the first 65,536 bytes.
    pub fn part_in_slot(
        &self,
        alloc: Global,
        t: &Ty,
        part: &[u32],
        slot: u32,
    ) -> Result<Operand, LayoutFault>
        requires { slot < 2 ^ 27 }
        ensures part { IfOk result (λ o. o ≡ operands.part_in_slot (scene_of self.now) (view_ty t.now) part.now slot) }
        ensures too_large { IfErr result (λ e. e ≡ TooLarge → limit < within (scene_of self.now).adts (view_ty t.now) part.now) }
    {
        if part.is_empty() {
            return Ok(self.in_slot(t, slot));
        }
        let at = self.rooms.within(alloc, t, part)?;
        Ok(self.in_box(slot, at))
    }

    /// Where a variable of the function stands.
    ///
    /// # Errors
    /// Want of memory. `TooLarge` exactly where it stands behind the first 65,536 bytes of the variables.
    pub fn variable_place(&self, alloc: Global, variable: u32) -> Result<u32, LayoutFault>
        ensures place { IfOk result (λ at. at ≡ variable_place (scene_of self.now).adts (scene_of self.now).variables variable) }
        ensures small { IfOk result (λ at. at ≤ 65568) }
        ensures too_large { IfErr result (λ e. e ≡ TooLarge → limit < within_row (scene_of self.now).adts (scene_of self.now).variables variable) }
    {
        let at = self.rooms.within_row(alloc, self.variables, variable)?;
        Ok(LINKAGE + at)
    }

    /// Where a variable of the module stands in its data.
    ///
    /// # Errors
    /// Want of memory. `TooLarge` exactly where it stands behind the first 65,536 bytes of the variables.
    pub fn global_place(&self, alloc: Global, variable: u32) -> Result<u32, LayoutFault>
        ensures place { IfOk result (λ at. at ≡ globals_place + within_row (scene_of self.now).adts (scene_of self.now).globals variable) }
        ensures small { IfOk result (λ at. at ≤ 65552) }
        ensures too_large { IfErr result (λ e. e ≡ TooLarge → limit < within_row (scene_of self.now).adts (scene_of self.now).globals variable) }
    {
        let at = self.rooms.within_row(alloc, self.globals, variable)?;
        Ok(GLOBALS + at)
    }

    // Puts the references of so many slots behind others.
    fn put_slots(&self, offsets: &mut Vec<u32>, slots: u32) -> Result<(), AllocError>
        requires { slots < 2 ^ 27 }
        ensures { OnOk result (offsets.new.items ≡ offsets.old.items
            ++ map (λ s. reference_place (scene_of self.now).adts (scene_of self.now).variables s) (range_with_len 0 slots)) }
    {
        for slot in 0..slots {
            offsets.push(self.reference_place(slot))?;
        }
        Ok(())
    }

    // Where the variables have references.
    fn variable_references(&self, alloc: Global) -> Result<Vec<u32>, LayoutFault>
        ensures references { IfOk result (λ os. os.items
            ≡ map (λ o. linkage_bytes + o) (row_of (scene_of self.now).adts (scene_of self.now).variables).references) }
        ensures too_large { IfErr result (λ e. e ≡ TooLarge → limit < (row_of (scene_of self.now).adts (scene_of self.now).variables).size) }
    {
        let row = self.rooms.row(alloc, self.variables)?;
        let mut offsets = Vec::new(alloc);
        for offset in row.references() {
            offsets.push(LINKAGE + *offset)?;
        }
        Ok(offsets)
    }

    /// Where the words of the frame are that refer, with so many slots.
    ///
    /// # Errors
    /// Want of memory. `TooLarge` only where its variables take more than 65,536 bytes.
    pub fn frame_references(&self, alloc: Global, slots: u32) -> Result<Vec<u32>, LayoutFault>
        requires { slots < 2 ^ 27 }
        ensures references { IfOk result (λ os. os.items ≡ frame_references (scene_of self.now).adts (scene_of self.now).variables slots) }
        ensures too_large { IfErr result (λ e. e ≡ TooLarge → limit < (row_of (scene_of self.now).adts (scene_of self.now).variables).size) }
    {
        let mut offsets = self.variable_references(alloc)?;
        offsets.push(self.spare)?;
        self.put_slots(&mut offsets, slots)?;
        Ok(offsets)
    }
}
