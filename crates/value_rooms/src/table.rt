//! The rooms of types by a table of the adts', and that table.

ghost use Rattle.std.specs.Prelude.{◌≡◌, IfOk, OnOk};
ghost use Rattle.limbo_types.specs.Types.{Tuple};
ghost use Rattle.limbo_types.specs.View.{view_ty, view_tys};
ghost use Rattle.value_rooms.specs.Cut.{all_behind, behind, taken, all_taken};
ghost use Rattle.value_rooms.specs.Tables.{round, table_of, view_parts};

use crate::room::Room;
use limbo_types::Ty;
use std::alloc::{AllocError, Global};

/// Puts a value of a type behind what is there.
#[tactic(auto, using(limbo_types::proofs::View::the_types))]
#[cycle(putting)]
pub(crate) fn put_type(
    alloc: Global,
    table: &[Room],
    whole: &mut Room,
    t: &Ty,
) -> Result<(), AllocError>
    ensures { OnOk result (whole.new ≡ behind whole.old (taken table.now (view_ty t.now))) }
{
    match t {
        Ty::Byte => {
            whole.put_number(1);
            Ok(())
        }
        Ty::Int => {
            whole.put_number(4);
            Ok(())
        }
        Ty::Big => {
            whole.put_number(8);
            Ok(())
        }
        Ty::Nothing => whole.put(&Room::new(alloc)),
        Ty::Tuple(parts) => {
            let room = tuple_room(alloc, table, parts)?;
            whole.put(&room)
        }
        Ty::Adt(number) => match table.get(*number as usize) {
            Some(room) => whole.put(room),
            None => whole.put(&Room::new(alloc)),
        },
        Ty::Chars => whole.put_reference(),
        Ty::Nil => whole.put_reference(),
        Ty::Array(_) => whole.put_reference(),
        Ty::List(_) => whole.put_reference(),
        Ty::Chan(_) => whole.put_reference(),
        Ty::RefAdt(_) => whole.put_reference(),
        Ty::RefPick { .. } => whole.put_reference(),
        Ty::Module(_) => whole.put_reference(),
    }
}

/// Puts values of types behind what is there, in their order.
#[cycle(putting)]
pub(crate) fn put_types(
    alloc: Global,
    table: &[Room],
    whole: &mut Room,
    types: &[Ty],
) -> Result<(), AllocError>
    ensures { OnOk result (whole.new ≡ all_behind whole.old (all_taken table.now (view_tys types.now))) }
{
    for t in types {
        put_type(alloc, table, whole, t)?;
    }
    Ok(())
}

// The room of a tuple of these types.
#[cycle(putting)]
fn tuple_room(alloc: Global, table: &[Room], parts: &[Ty]) -> Result<Room, AllocError>
    ensures { IfOk result (λ r. r ≡ taken table.now (Tuple (view_tys parts.now))) }
{
    let mut whole = Room::new(alloc);
    put_types(alloc, table, &mut whole, parts)?;
    whole.round();
    Ok(whole)
}

// One round more.
fn next_table(alloc: Global, table: &[Room], all: &[Vec<Ty>]) -> Result<Vec<Room>, AllocError>
    ensures { IfOk result (λ next. next.items ≡ round table.now (view_parts all.now)) }
{
    let mut next = Vec::new(alloc);
    for parts in all {
        next.push(tuple_room(alloc, table, parts)?)?;
    }
    Ok(next)
}

/// The rooms of all adts that have these parts.
pub(crate) fn table_of(alloc: Global, all: &[Vec<Ty>]) -> Result<Vec<Room>, AllocError>
    ensures { IfOk result (λ table. table.items ≡ table_of (view_parts all.now)) }
{
    let mut table = Vec::new(alloc);
    for _ in 0..all.len() {
        table = next_table(alloc, &table, all)?;
    }
    Ok(table)
}
