//! The rooms of types, by a table of the adts' rooms.

ghost use Rattle.std.specs.Prelude.{◌≡◌, ◌<◌, ◌≤◌, List, map, OnOk, IfOk, IfErr};
ghost use Rattle.limbo_types.specs.Types.{Tuple};
ghost use Rattle.limbo_types.specs.View.{view_ty, view_tys};
ghost use Rattle.limbo_layout.specs.Adts.{types_of, variant_types, tag, parts};
ghost use Rattle.limbo_layout.specs.Layout.{behind, all_behind, in_order, nothing, limit, Room as Taken};
ghost use Rattle.limbo_layout.specs.Laying.{room, rooms_of};
ghost use Rattle.limbo_layout.specs.View.{view_def, view_fields, view_variant};
ghost use Rattle.limbo_layout.specs.declared.def.LayoutFault.TheVariants.{TooLarge};

use crate::def::{AdtDef, Field, LayoutFault, Variant};
use crate::room::Room;
use limbo_types::Ty;
use std::alloc::Global;

/// Puts a value of a type behind what is there.
#[tactic(auto, using(limbo_types::proofs::View::the_types))]
#[cycle(putting)]
pub(crate) fn put_type(
    alloc: Global,
    rooms: &[Room],
    whole: &mut Room,
    t: &Ty,
) -> Result<(), LayoutFault>
    ensures ok { OnOk result (whole.new ≡ behind whole.old (room rooms.now (view_ty t.now))) }
    ensures too_large { IfErr result (λ e. e ≡ TooLarge → limit < (behind whole.old (room rooms.now (view_ty t.now))).size) }
{
    match t {
        Ty::Byte => whole.put_number(1),
        Ty::Int => whole.put_number(4),
        Ty::Big => whole.put_number(8),
        Ty::Nothing => whole.put(&Room::new(alloc)),
        Ty::Tuple(parts) => {
            let room = tuple_room(alloc, rooms, parts)?;
            whole.put(&room)
        }
        Ty::Adt(number) => match rooms.get(*number as usize) {
            Some(room) => whole.put(room),
            None => whole.put(&Room::new(alloc)),
        },
        Ty::Chars => whole.put_reference(),
        Ty::Nil => whole.put_reference(),
        Ty::Array(_) => whole.put_reference(),
        Ty::List(_) => whole.put_reference(),
        Ty::Chan(_) => whole.put_reference(),
        Ty::RefAdt(_) => whole.put_reference(),
        Ty::RefPick { .. } => whole.put_reference(),
        Ty::Module(_) => whole.put_reference(),
    }
}

// The room of a tuple of these types.
#[cycle(putting)]
fn tuple_room(alloc: Global, rooms: &[Room], parts: &[Ty]) -> Result<Room, LayoutFault>
    ensures ok { IfOk result (λ r. r ≡ room rooms.now (Tuple (view_tys parts.now))) }
    ensures too_large { IfErr result (λ e. e ≡ TooLarge → limit < (room rooms.now (Tuple (view_tys parts.now))).size) }
{
    let mut whole = Room::new(alloc);
    for t in parts {
        put_type(alloc, rooms, &mut whole, t)?;
    }
    whole.round();
    Ok(whole)
}

// Puts the fields behind what is there, in order.
fn put_fields(
    alloc: Global,
    rooms: &[Room],
    whole: &mut Room,
    fields: &[Field],
) -> Result<(), LayoutFault>
    ensures ok { OnOk result (whole.new ≡ all_behind whole.old (rooms_of rooms.now (types_of (view_fields fields.now)))) }
    ensures too_large { IfErr result (λ e. e ≡ TooLarge → limit < (all_behind whole.old (rooms_of rooms.now (types_of (view_fields fields.now)))).size) }
{
    for field in fields {
        put_type(alloc, rooms, whole, &field.ty)?;
    }
    Ok(())
}

// Puts the fields of all variants behind what is there, one variant after the other.
fn put_variants(
    alloc: Global,
    rooms: &[Room],
    whole: &mut Room,
    picks: &[Variant],
) -> Result<(), LayoutFault>
    ensures ok { OnOk result (whole.new ≡ all_behind whole.old (rooms_of rooms.now (variant_types (map view_variant picks.now)))) }
    ensures too_large { IfErr result (λ e. e ≡ TooLarge → limit < (all_behind whole.old (rooms_of rooms.now (variant_types (map view_variant picks.now)))).size) }
{
    for variant in picks {
        put_fields(alloc, rooms, whole, &variant.fields)?;
    }
    Ok(())
}

// The tag of a pick adt, and nothing of another.
fn tagged(alloc: Global, picks: &[Variant]) -> Result<Room, LayoutFault>
    ensures ok { IfOk result (λ r. (rooms : List Taken) → r ≡ all_behind nothing (rooms_of rooms (tag (map view_variant picks.now)))) }
    ensures fits { IfErr result (λ e. e ≡ TooLarge → ⊥) }
{
    let mut whole = Room::new(alloc);
    if !picks.is_empty() {
        whole.put_number(4)?;
    }
    Ok(whole)
}

/// The room of an adt, by the rooms of those that its values hold in place.
pub(crate) fn adt_room(alloc: Global, rooms: &[Room], def: &AdtDef) -> Result<Room, LayoutFault>
    ensures ok { IfOk result (λ r. r ≡ in_order (rooms_of rooms.now (parts (view_def def.now)))) }
    ensures fits { IfOk result (λ r. r.size ≤ limit) }
    ensures too_large { IfErr result (λ e. e ≡ TooLarge → limit < (in_order (rooms_of rooms.now (parts (view_def def.now)))).size) }
{
    let mut whole = tagged(alloc, &def.picks)?;
    put_fields(alloc, rooms, &mut whole, &def.fields)?;
    put_variants(alloc, rooms, &mut whole, &def.picks)?;
    whole.round();
    Ok(whole)
}
