//! What values of types take, by the adts of a module, and where in them their parts are.

ghost use Rattle.std.specs.Prelude.{◌≡◌, ◌<◌, ◌≤◌, ◌⊎◌, map, slice_index_or, IfOk, IfErr};
ghost use Rattle.limbo_types.specs.Types.{Nothing};
ghost use Rattle.limbo_types.specs.View.{view_ty};
ghost use Rattle.limbo_layout.specs.Layout.{limit};
ghost use Rattle.limbo_layout.specs.Laying.{AllBelow};
ghost use Rattle.limbo_layout.specs.View.{view_defs};
ghost use Rattle.limbo_layout.specs.declared.def.LayoutFault.TheVariants.{TooLarge};
ghost use Rattle.core_code.specs.Terms.{part_types};
ghost use Rattle.value_frames.specs.Frames.{box_bytes, names_at, room_for, row_of, type_within, within, within_row};
ghost use Rattle.value_rooms.specs.Cut.{cut, most};
ghost use Rattle.value_rooms.specs.Names.{moved};
ghost use Rattle.value_rooms.specs.Tables.{AdtsFit};

use crate::names::{are_told, names_of, put_names};
use crate::parts::all_parts;
use crate::room::{LIMIT, Room};
use crate::table::{put_type, put_types, table_of};
use limbo_layout::{AdtDef, LayoutFault};
use limbo_types::Ty;
use std::alloc::{AllocError, Global};
use std::marker::Model;

/// What values of types take, where their adts have these definitions.
#[derive(Drop)]
pub struct Rooms<'a> {
    defs: &'a [AdtDef],
    // What stands where there is no part.
    nothing: Ty,
    // Of each adt what its values are made of, in order.
    parts: Vec<Vec<Ty>>,
    // Of each adt what its values take.
    table: Vec<Room>,
    // Of each adt where in its values the references are that are no strings.
    names: Vec<Vec<u32>>,
}

impl<'a> Model for Rooms<'a> {
    ghost use Rattle.std.specs.Prelude.{List};
    ghost use Rattle.std.specs.Coded.{codes};
    ghost use Rattle.limbo_types.specs.contracts.ty.Ty as ty;
    ghost use Rattle.limbo_layout.specs.declared.def.AdtDef.{AdtDef};

    ghost Value = { List AdtDef };

    ghost coded = { Prim.hlevel (codes, ty.the_row.coded) };

    ghost use Rattle.value_rooms.specs.Made.{defs_in, IsMade};

    ghost view = { defs_in };

    ghost invariant = { IsMade };
}

impl<'a> Rooms<'a> {
    /// What values take whose adts have these definitions.
    ///
    /// # Errors
    /// Want of memory. `TooLarge` exactly where an adt takes more than 65,536 bytes.
    pub fn new(alloc: Global, defs: &'a [AdtDef]) -> Result<Rooms<'a>, LayoutFault>
        ensures defs { IfOk result (λ rooms. rooms ≡ defs.now) }
        ensures fit { IfOk result (λ _. AdtsFit (view_defs defs.now)) }
        ensures too_large { IfErr result (λ e. e ≡ TooLarge → AdtsFit (view_defs defs.now) → ⊥) }
    {
        let parts = all_parts(alloc, defs)?;
        let table = table_of(alloc, &parts)?;
        for room in &table {
            if room.size() > LIMIT {
                return Err(LayoutFault::TooLarge);
            }
        }
        let names = names_of(alloc, &table, &parts)?;
        Ok(Rooms {
            defs,
            nothing: Ty::Nothing,
            parts,
            table,
            names,
        })
    }

    /// The definitions of the adts.
    pub fn defs(&self) -> &'a [AdtDef]
        ensures { result.now ≡ self.now }
    {
        self.defs
    }

    // The room of a type, as far as it is told.
    fn taken(&self, alloc: Global, t: &Ty) -> Result<Room, AllocError>
        ensures { IfOk result (λ r. r ≡ cut (room_for (view_defs self.now) (view_ty t.now))) }
    {
        let mut whole = Room::new(alloc);
        put_type(alloc, &self.table, &mut whole, t)?;
        Ok(whole)
    }

    // The room of values in a row, as far as it is told.
    fn taken_row(&self, alloc: Global, types: &[Ty]) -> Result<Room, AllocError>
        ensures { IfOk result (λ r. r ≡ cut (row_of (view_defs self.now) (map view_ty types.now))) }
    {
        let mut whole = Room::new(alloc);
        put_types(alloc, &self.table, &mut whole, types)?;
        Ok(whole)
    }

    /// The room of a type.
    ///
    /// # Errors
    /// Want of memory. `TooLarge` exactly where it takes more than 65,536 bytes.
    pub fn room(&self, alloc: Global, t: &Ty) -> Result<Room, LayoutFault>
        ensures room { IfOk result (λ r. r ≡ room_for (view_defs self.now) (view_ty t.now)) }
        ensures fits { IfOk result (λ r. r.size ≤ limit) }
        ensures too_large { IfErr result (λ e. e ≡ TooLarge → limit < (room_for (view_defs self.now) (view_ty t.now)).size) }
    {
        let room = self.taken(alloc, t)?;
        if room.size() > LIMIT {
            return Err(LayoutFault::TooLarge);
        }
        Ok(room)
    }

    /// The room of values in a row.
    ///
    /// # Errors
    /// Want of memory. `TooLarge` exactly where they take more than 65,536 bytes.
    pub fn row(&self, alloc: Global, types: &[Ty]) -> Result<Room, LayoutFault>
        ensures row { IfOk result (λ r. r ≡ row_of (view_defs self.now) (map view_ty types.now)) }
        ensures fits { IfOk result (λ r. r.size ≤ limit) }
        ensures too_large { IfErr result (λ e. e ≡ TooLarge → limit < (row_of (view_defs self.now) (map view_ty types.now)).size) }
    {
        let room = self.taken_row(alloc, types)?;
        if room.size() > LIMIT {
            return Err(LayoutFault::TooLarge);
        }
        Ok(room)
    }

    /// What a record takes that has a value of a type: whole words.
    ///
    /// # Errors
    /// Want of memory. `TooLarge` exactly where the value takes more than 65,536 bytes.
    pub fn box_bytes(&self, alloc: Global, t: &Ty) -> Result<u32, LayoutFault>
        ensures bytes { IfOk result (λ n. n ≡ box_bytes (view_defs self.now) (view_ty t.now)) }
        ensures fits { IfOk result (λ n. n ≤ limit) }
        ensures too_large { IfErr result (λ e. e ≡ TooLarge → limit < (room_for (view_defs self.now) (view_ty t.now)).size) }
    {
        let room = self.room(alloc, t)?;
        Ok(room.size().next_multiple_of(4))
    }

    // What the place of the value of a number in a row is a multiple of.
    fn part_align(&self, alloc: Global, types: &[Ty], number: u32) -> Result<u32, AllocError>
        ensures align { IfOk result (λ a. a ≡ (room_for (view_defs self.now) (slice_index_or (map view_ty types.now) number Nothing)).align) }
        ensures number { IfOk result (λ a. (a ≡ 1) ⊎ ((a ≡ 4) ⊎ (a ≡ 8))) }
    {
        match types.get(number as usize) {
            Some(t) => {
                let part = self.taken(alloc, t)?;
                Ok(part.align())
            }
            None => Ok(1),
        }
    }

    /// Where in values in a row the one of a number stands.
    ///
    /// # Errors
    /// Want of memory. `TooLarge` exactly where it stands behind the first 65,536 bytes.
    pub fn within_row(&self, alloc: Global, types: &[Ty], number: u32) -> Result<u32, LayoutFault>
        ensures at { IfOk result (λ at. at ≡ within_row (view_defs self.now) (map view_ty types.now) number) }
        ensures fits { IfOk result (λ at. at ≤ limit) }
        ensures too_large { IfErr result (λ e. e ≡ TooLarge → limit < within_row (view_defs self.now) (map view_ty types.now) number) }
    {
        let before = self.taken_row(alloc, &types[..(number as usize).min(types.len())])?;
        let align = self.part_align(alloc, types, number)?;
        let at = before.size().next_multiple_of(align);
        if at > LIMIT {
            return Err(LayoutFault::TooLarge);
        }
        Ok(at)
    }

    /// The types of the parts of a value: none of one without parts.
    #[tactic(auto, using(limbo_types::proofs::View::the_types))]
    pub fn part_types<'b>(&'b self, t: &'b Ty) -> &'b [Ty]
        ensures { map view_ty result.now ≡ part_types (view_defs self.now) (view_ty t.now) }
    {
        match t {
            Ty::Tuple(types) => types,
            Ty::Adt(number) => match self.parts.get(*number as usize) {
                Some(types) => types,
                None => &[],
            },
            _ => &[],
        }
    }

    /// The type of a part of a value: nothing where there is no such part.
    pub fn part_type<'b>(&'b self, t: &'b Ty, number: u32) -> &'b Ty
        ensures { view_ty result.now ≡ slice_index_or (part_types (view_defs self.now) (view_ty t.now)) number Nothing }
    {
        self.part_types(t)
            .get(number as usize)
            .unwrap_or(&self.nothing)
    }

    /// Where in a value of a type the part stands to which these numbers lead.
    ///
    /// # Errors
    /// Want of memory. `TooLarge` exactly where it stands behind the first 65,536 bytes.
    pub fn within(&self, alloc: Global, t: &Ty, part: &[u32]) -> Result<u32, LayoutFault>
        ensures at { IfOk result (λ at. at ≡ within (view_defs self.now) (view_ty t.now) part.now) }
        ensures fits { IfOk result (λ at. at ≤ limit) }
        ensures too_large { IfErr result (λ e. e ≡ TooLarge → limit < within (view_defs self.now) (view_ty t.now) part.now) }
    {
        let mut at = 0;
        let mut whole = t;
        for number in part {
            at += self.within_row(alloc, self.part_types(whole), *number)?;
            if at > LIMIT {
                return Err(LayoutFault::TooLarge);
            }
            whole = self.part_type(whole, *number);
        }
        Ok(at)
    }

    /// The type of the part of a value to which these numbers lead.
    pub fn type_within<'b>(&'b self, t: &'b Ty, part: &[u32]) -> &'b Ty
        ensures { view_ty result.now ≡ type_within (view_defs self.now) (view_ty t.now) part.now }
    {
        let mut whole = t;
        for number in part {
            whole = self.part_type(whole, *number);
        }
        whole
    }

    // Where in a value of a type the references are that are no strings, as far as it is told.
    fn told_names(&self, alloc: Global, t: &Ty) -> Result<Vec<u32>, AllocError>
        ensures { IfOk result (λ names. names.items ≡ moved 0 (names_at (view_defs self.now) (view_ty t.now))) }
    {
        let mut names = Vec::new(alloc);
        put_names(alloc, &self.table, &self.names, &mut names, 0, t)?;
        Ok(names)
    }

    /// Where in a value of a type the references are that are no strings.
    ///
    /// # Errors
    /// Want of memory. `TooLarge` exactly where one stands behind the first 65,536 bytes.
    pub fn names_at(&self, alloc: Global, t: &Ty) -> Result<Vec<u32>, LayoutFault>
        ensures names { IfOk result (λ names. names.items ≡ names_at (view_defs self.now) (view_ty t.now)) }
        ensures fit { IfOk result (λ names. AllBelow most names.items) }
        ensures too_large { IfErr result (λ e. e ≡ TooLarge → AllBelow most (names_at (view_defs self.now) (view_ty t.now)) → ⊥) }
    {
        let names = self.told_names(alloc, t)?;
        if !are_told(&names) {
            return Err(LayoutFault::TooLarge);
        }
        Ok(names)
    }
}
