//! Where the references of values are that are no strings.

ghost use Rattle.std.specs.Prelude.{◌≡◌, ◌≤◌, ◌++◌, ◌∷◌, [], ◌↔◌, IfOk, IsTrue, OnOk};
ghost use Rattle.limbo_types.specs.View.{view_ty, view_tys};
ghost use Rattle.limbo_layout.specs.Layout.{nothing};
ghost use Rattle.limbo_layout.specs.Laying.{AllBelow};
ghost use Rattle.value_rooms.specs.Cut.{most, single};
ghost use Rattle.value_rooms.specs.Names.{all_named, moved, named, names_of, names_round, view_names};
ghost use Rattle.value_rooms.specs.Tables.{view_parts};

use crate::room::{LIMIT, MOST, Room};
use crate::table::put_type;
use limbo_types::Ty;
use std::alloc::{AllocError, Global};

// Puts offsets in what stands at a place behind others.
fn put_moved(names: &mut Vec<u32>, at: u32, offsets: &[u32]) -> Result<(), AllocError>
    ensures { OnOk result (names.new.items ≡ names.old.items ++ moved at offsets.now) }
{
    for offset in offsets {
        names.push(at.saturating_add(*offset).min(MOST))?;
    }
    Ok(())
}

// The room of a value that stands alone.
fn single_room(alloc: Global, table: &[Room], t: &Ty) -> Result<Room, AllocError>
    ensures { IfOk result (λ r. r ≡ single table.now (view_ty t.now)) }
{
    let mut part = Room::new(alloc);
    put_type(alloc, table, &mut part, t)?;
    Ok(part)
}

/// Puts the references of a value that stands at a place behind others.
#[tactic(auto, using(limbo_types::proofs::View::the_types))]
#[cycle(naming)]
pub(crate) fn put_names(
    alloc: Global,
    table: &[Room],
    adts: &[Vec<u32>],
    names: &mut Vec<u32>,
    at: u32,
    t: &Ty,
) -> Result<(), AllocError>
    requires { at ≤ most }
    ensures { OnOk result (names.new.items ≡ names.old.items ++ named table.now (view_names adts.now) at (view_ty t.now)) }
{
    match t {
        Ty::Tuple(parts) => put_row_names(alloc, table, adts, names, at, parts),
        Ty::Adt(number) => match adts.get(*number as usize) {
            Some(offsets) => put_moved(names, at, offsets),
            None => Ok(()),
        },
        Ty::Byte => Ok(()),
        Ty::Int => Ok(()),
        Ty::Big => Ok(()),
        Ty::Chars => Ok(()),
        Ty::Nothing => Ok(()),
        Ty::Nil => put_one(names, at),
        Ty::Array(_) => put_one(names, at),
        Ty::List(_) => put_one(names, at),
        Ty::Chan(_) => put_one(names, at),
        Ty::RefAdt(_) => put_one(names, at),
        Ty::RefPick { .. } => put_one(names, at),
        Ty::Module(_) => put_one(names, at),
    }
}

fn put_one(names: &mut Vec<u32>, at: u32) -> Result<(), AllocError>
    ensures { OnOk result (names.new.items ≡ names.old.items ++ at ∷ []) }
{
    names.push(at)?;
    Ok(())
}

// Puts the references of values in a row that begins at a place behind others.
#[cycle(naming)]
fn put_row_names(
    alloc: Global,
    table: &[Room],
    adts: &[Vec<u32>],
    names: &mut Vec<u32>,
    at: u32,
    types: &[Ty],
) -> Result<(), AllocError>
    requires { at ≤ most }
    ensures { OnOk result (names.new.items ≡ names.old.items ++ all_named table.now (view_names adts.now) at nothing (view_tys types.now)) }
{
    let mut whole = Room::new(alloc);
    for t in types {
        let part = single_room(alloc, table, t)?;
        let place = at + whole.size().next_multiple_of(part.align());
        put_names(alloc, table, adts, names, place.min(MOST), t)?;
        whole.put(&part)?;
    }
    Ok(())
}

// Those of values in a row.
fn row_names(
    alloc: Global,
    table: &[Room],
    adts: &[Vec<u32>],
    types: &[Ty],
) -> Result<Vec<u32>, AllocError>
    ensures { IfOk result (λ names. names.items ≡ all_named table.now (view_names adts.now) 0 nothing (view_tys types.now)) }
{
    let mut names = Vec::new(alloc);
    put_row_names(alloc, table, adts, &mut names, 0, types)?;
    Ok(names)
}

// One round more.
fn next_names(
    alloc: Global,
    table: &[Room],
    all: &[Vec<Ty>],
    adts: &[Vec<u32>],
) -> Result<Vec<Vec<u32>>, AllocError>
    ensures { IfOk result (λ next. view_names next.items ≡ names_round table.now (view_parts all.now) (view_names adts.now)) }
{
    let mut next = Vec::new(alloc);
    for parts in all {
        next.push(row_names(alloc, table, adts, parts)?)?;
    }
    Ok(next)
}

/// Those of each adt that has these parts.
pub(crate) fn names_of(
    alloc: Global,
    table: &[Room],
    all: &[Vec<Ty>],
) -> Result<Vec<Vec<u32>>, AllocError>
    ensures { IfOk result (λ names. view_names names.items ≡ names_of table.now (view_parts all.now)) }
{
    let mut names = Vec::new(alloc);
    for _ in 0..all.len() {
        names = next_names(alloc, table, all, &names)?;
    }
    Ok(names)
}

/// Whether each offset is told as it is.
pub(crate) fn are_told(names: &[u32]) -> bool
    ensures { IsTrue result ↔ AllBelow most names.now }
{
    for name in names {
        if *name > LIMIT {
            return false;
        }
    }
    true
}
