//! What values of types take, by the adts of a module.

ghost use Rattle.std.specs.Prelude.{◌≡◌, ℕ, ◌+◌, ◌*◌, ◌<◌, ◌≤◌, map, min, take, IfOk, MatchOption};
ghost use Rattle.limbo_types.specs.View.{view_ty};
ghost use Rattle.limbo_layout.specs.Layout.{limit};
ghost use Rattle.limbo_layout.specs.Laying.{room};
ghost use Rattle.limbo_layout.specs.View.{view_defs};
ghost use Rattle.limbo_meaning.specs.Operations.{size_of};
ghost use Rattle.limbo_meaning.specs.Evaluation.{refers};
ghost use Rattle.core_code.specs.Rooms.{rooms_in};
ghost use Rattle.core_code.specs.Terms.{count_of, count_all, part_types};
ghost use Rattle.value_extents.specs.Extent.{most, told};
ghost use Rattle.value_extents.specs.Parts.{IsPart};

use crate::extent::{Extent, LIMIT};
use crate::parts::first_parts;
use crate::table::{extent_of, table_of, types_behind};
use limbo_layout::AdtDef;
use limbo_types::Ty;
use std::alloc::{AllocError, Global};
use std::marker::Model;

/// The references of a part of a value: how many stand in front of them, and how many they are, none where there is no such part.
#[derive(Clone, Copy, PartialEq, Eq, Debug)]
pub struct PartReferences {
    pub before: u32,
    pub count: u32,
}

/// What values of types take, where their adts are these.
#[derive(Drop)]
pub struct Extents<'a> {
    defs: &'a [AdtDef],
    // Of each adt what its values take.
    table: Vec<Extent>,
}

impl<'a> Model for Extents<'a> {
    ghost use Rattle.std.specs.Prelude.{List};
    ghost use Rattle.std.specs.Coded.{codes};
    ghost use Rattle.limbo_types.specs.contracts.ty.Ty as ty;
    ghost use Rattle.limbo_layout.specs.declared.def.AdtDef.{AdtDef};

    ghost Value = { List AdtDef };

    ghost coded = { Prim.hlevel (codes, ty.the_row.coded) };

    ghost use Rattle.value_extents.specs.Made.{defs_in, IsMade};

    ghost view = { defs_in };

    ghost invariant = { IsMade };
}

impl<'a> Extents<'a> {
    /// What values take whose adts have these definitions.
    ///
    /// # Errors
    /// Want of memory.
    pub fn new(alloc: Global, defs: &'a [AdtDef]) -> Result<Extents<'a>, AllocError>
        ensures { IfOk result (λ extents. extents ≡ defs.now) }
    {
        let table = table_of(alloc, defs)?;
        Ok(Extents { defs, table })
    }

    /// The definitions of the adts.
    pub fn defs(&self) -> &'a [AdtDef]
        ensures { result.now ≡ self.now }
    {
        self.defs
    }

    // What is told of a type.
    fn extent(&self, t: &Ty) -> Extent
        ensures { result ≡ told (room (rooms_in (view_defs self.now)) (view_ty t.now)) (count_of (view_defs self.now) (view_ty t.now)) }
    {
        extent_of(&self.table, t)
    }

    // How many references the first parts of a type have.
    fn first_count(&self, t: &Ty, parts: usize) -> u32
        ensures { result ≡ min (count_all (view_defs self.now) (take parts (part_types (view_defs self.now) (view_ty t.now)))) most }
    {
        first_parts(&self.table, self.defs, t, parts).count()
    }

    // How many references types in a row have.
    fn row_count(&self, types: &[Ty]) -> u32
        ensures { result ≡ min (count_all (view_defs self.now) (map view_ty types.now)) most }
    {
        types_behind(&self.table, Extent::empty(), types).count()
    }

    /// Whether values of a type have references.
    pub fn refers(&self, t: &Ty) -> bool
        ensures { result ≡ refers (view_defs self.now) (view_ty t.now) }
    {
        self.extent(t).count() > 0
    }

    /// How many bytes a value of a type takes, where it isn't more than 65,536.
    pub fn size(&self, t: &Ty) -> Option<u32>
        ensures { MatchOption result (limit < size_of (view_defs self.now) (view_ty t.now))
            (λ n. (n ≤ limit) × (n ≡ size_of (view_defs self.now) (view_ty t.now))) }
    {
        let size = self.extent(t).size();
        if size > LIMIT { None } else { Some(size) }
    }

    /// What the place of a value of a type is a multiple of.
    pub fn align(&self, t: &Ty) -> u32
        ensures align { result ≡ (room (rooms_in (view_defs self.now)) (view_ty t.now)).align }
        ensures above { 1 ≤ result }
        ensures below { result ≤ 8 }
    {
        self.extent(t).align()
    }

    /// How many references a value of a type has.
    pub fn count(&self, t: &Ty) -> u32
        requires { size_of (view_defs self.now) (view_ty t.now) ≤ limit }
        ensures count { result ≡ count_of (view_defs self.now) (view_ty t.now) }
        ensures within { 4 * result ≤ size_of (view_defs self.now) (view_ty t.now) }
    {
        self.extent(t).count()
    }

    /// How many references values of types in a row have, where they aren't more than 65,536.
    pub fn count_all(&self, types: &[Ty]) -> Option<u32>
        ensures { MatchOption result (limit < count_all (view_defs self.now) (map view_ty types.now))
            (λ n. n ≡ count_all (view_defs self.now) (map view_ty types.now)) }
    {
        let count = self.row_count(types);
        if count > LIMIT { None } else { Some(count) }
    }

    /// Which references of a value of a type are those of a part of it, where those up to its end aren't more than 65,536.
    pub fn part(&self, t: &Ty, part: u32) -> Option<PartReferences>
        ensures { MatchOption result
            (limit < count_all (view_defs self.now) (take (part + 1) (part_types (view_defs self.now) (view_ty t.now))))
            (IsPart (view_defs self.now) (part_types (view_defs self.now) (view_ty t.now)) part) }
    {
        let upto = self.first_count(t, part as usize + 1);
        if upto > LIMIT {
            return None;
        }
        let before = self.first_count(t, part as usize);
        Some(PartReferences {
            before,
            count: upto - before,
        })
    }
}
