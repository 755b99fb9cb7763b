//! The rooms of all adts: each after those that its values hold in place.

ghost use Rattle.std.specs.Prelude.{◌≡◌, ℕ, ◌+◌, ◌*◌, ◌<◌, ◌^◌, true, false, List, map, length, OnOk, IfOk, IfErr, IfSome, IfNone};
ghost use Rattle.limbo_types.specs.View.{view_ty, view_tys};
ghost use Rattle.limbo_types.specs.Types.{Adt, Tuple};
ghost use Rattle.limbo_layout.specs.Adts.{Def, Has, held, held_in, all_held, types_of, variant_types, parts};
ghost use Rattle.limbo_layout.specs.Layout.{Fits};
ghost use Rattle.limbo_layout.specs.Laying.{AreLaid};
ghost use Rattle.limbo_layout.specs.Paths.{IsAt, HoldsOnly, Climbs, IsReady, left};
ghost use Rattle.limbo_layout.specs.View.{view_def, view_defs, view_fields, view_variant};
ghost use Rattle.limbo_layout.specs.declared.def.AdtsFault.TheVariants.{TooLarge};

use crate::def::{AdtDef, AdtsFault, Field, LayoutFault, Variant};
use crate::laying::adt_room;
use crate::room::Room;
use limbo_types::Ty;
use std::alloc::{AllocError, Global};

// The rooms so far.
#[derive(Drop)]
struct Table {
    rooms: Vec<Room>,
    // Whose room stands in the table.
    laid: Vec<bool>,
    // What was met on a way from an adt to those that it holds.
    entered: Vec<bool>,
}

// The first adt without a room that a value of the type holds in place.
#[tactic(auto, using(limbo_types::proofs::View::the_types))]
#[cycle(unlaid)]
fn unlaid_in_type(t: &Ty, laid: &[bool]) -> Option<u32>
    ensures some { IfSome result (λ n. Has (held (view_ty t.now)) n × (IsAt laid.now n true → ⊥)) }
    ensures none { IfNone result ((n : ℕ) → Has (held (view_ty t.now)) n → IsAt laid.now n true) }
{
    match t {
        Ty::Tuple(parts) => unlaid_in_tuple(parts, laid),
        Ty::Adt(number) => {
            if laid.get(*number as usize).copied().unwrap_or(false) {
                None
            } else {
                Some(*number)
            }
        }
        Ty::Byte => None,
        Ty::Int => None,
        Ty::Big => None,
        Ty::Chars => None,
        Ty::Nothing => None,
        Ty::Nil => None,
        Ty::Array(_) => None,
        Ty::List(_) => None,
        Ty::Chan(_) => None,
        Ty::RefAdt(_) => None,
        Ty::RefPick { .. } => None,
        Ty::Module(_) => None,
    }
}

#[cycle(unlaid)]
fn unlaid_in_tuple(parts: &[Ty], laid: &[bool]) -> Option<u32>
    ensures some { IfSome result (λ n. Has (all_held (view_tys parts.now)) n × (IsAt laid.now n true → ⊥)) }
    ensures none { IfNone result ((n : ℕ) → Has (all_held (view_tys parts.now)) n → IsAt laid.now n true) }
{
    for t in parts {
        if let Some(number) = unlaid_in_type(t, laid) {
            return Some(number);
        }
    }
    None
}

fn unlaid_in_fields(fields: &[Field], laid: &[bool]) -> Option<u32>
    ensures some { IfSome result (λ n. Has (held_in (types_of (view_fields fields.now))) n × (IsAt laid.now n true → ⊥)) }
    ensures none { IfNone result ((n : ℕ) → Has (held_in (types_of (view_fields fields.now))) n → IsAt laid.now n true) }
{
    for field in fields {
        if let Some(number) = unlaid_in_type(&field.ty, laid) {
            return Some(number);
        }
    }
    None
}

fn unlaid_in_variants(picks: &[Variant], laid: &[bool]) -> Option<u32>
    ensures some { IfSome result (λ n. Has (held_in (variant_types (map view_variant picks.now))) n × (IsAt laid.now n true → ⊥)) }
    ensures none { IfNone result ((n : ℕ) → Has (held_in (variant_types (map view_variant picks.now))) n → IsAt laid.now n true) }
{
    for variant in picks {
        if let Some(number) = unlaid_in_fields(&variant.fields, laid) {
            return Some(number);
        }
    }
    None
}

// The first adt without a room that a value of the adt holds.
fn unlaid(def: &AdtDef, laid: &[bool]) -> Option<u32>
    ensures some { IfSome result (λ n. Has (held_in (parts (view_def def.now))) n × (IsAt laid.now n true → ⊥)) }
    ensures none { IfNone result ((n : ℕ) → Has (held_in (parts (view_def def.now))) n → IsAt laid.now n true) }
{
    if let Some(number) = unlaid_in_fields(&def.fields, laid) {
        return Some(number);
    }
    unlaid_in_variants(&def.picks, laid)
}

// Goes on to an adt that the last one on the path holds and that has no room yet, or lays the last one and leaves it.
fn step(
    alloc: Global,
    defs: &[AdtDef],
    first: u32,
    table: &mut Table,
    path: &mut Vec<u32>,
) -> Result<(), AdtsFault>
    requires held { HoldsOnly (view_defs defs.now) }
    requires some { 0 < length path.old.items }
    requires climbs { Climbs (view_defs defs.now) first table.old.rooms.items table.old.laid.items table.old.entered.items path.old.items }
    ensures climbs { OnOk result (Climbs (view_defs defs.now) first table.new.rooms.items table.new.laid.items table.new.entered.items path.new.items) }
    ensures keeps { OnOk result ((n : ℕ) → IsAt table.old.laid.items n true → IsAt table.new.laid.items n true) }
    ensures less { OnOk result (left table.new.entered.items path.new.items < left table.old.entered.items path.old.items) }
    ensures too_large { IfErr result (λ e. (n : ℕ) → e ≡ TooLarge n → (n ≡ first) × (Fits (view_defs defs.now) (Adt first) → ⊥)) }
{
    let top = path[path.len() - 1];
    let def = &defs[top as usize];
    match unlaid(def, &table.laid) {
        Some(next) => {
            if table.entered[next as usize] {
                return Err(AdtsFault::TooLarge { adt: first });
            }
            table.entered[next as usize] = true;
            path.push(next)?;
        }
        None => {
            let room = match adt_room(alloc, &table.rooms, def) {
                Ok(room) => room,
                Err(LayoutFault::NoMemory) => return Err(AdtsFault::NoMemory),
                Err(LayoutFault::TooLarge) => return Err(AdtsFault::TooLarge { adt: first }),
            };
            table.rooms[top as usize] = room;
            table.laid[top as usize] = true;
            let _ = path.pop();
        }
    }
    Ok(())
}

// The room of an adt, and of all that its values hold in place and that have none yet.
fn lay(alloc: Global, defs: &[AdtDef], first: u32, table: &mut Table) -> Result<(), AdtsFault>
    requires held { HoldsOnly (view_defs defs.now) }
    requires first { IsAt table.old.laid.items first false }
    requires ready { IsReady (view_defs defs.now) table.old.rooms.items table.old.laid.items table.old.entered.items }
    ensures ready { OnOk result (IsReady (view_defs defs.now) table.new.rooms.items table.new.laid.items table.new.entered.items) }
    ensures keeps { OnOk result ((n : ℕ) → IsAt table.old.laid.items n true → IsAt table.new.laid.items n true) }
    ensures first { OnOk result (IsAt table.new.laid.items first true) }
    ensures too_large { IfErr result (λ e. (n : ℕ) → e ≡ TooLarge n → (n ≡ first) × (Fits (view_defs defs.now) (Adt first) → ⊥)) }
{
    table.entered[first as usize] = true;
    let mut path = vec![in alloc; first]?;
    'climbing: while !path.is_empty() {
        step(alloc, defs, first, table, &mut path)?;
    }
    Ok(())
}

// A table for so many adts, none of which has its room yet.
fn empty_table(alloc: Global, count: usize) -> Result<Table, AllocError>
    ensures { IfOk result (λ t. (defs : List Def) → length defs ≡ count → IsReady defs t.rooms.items t.laid.items t.entered.items) }
{
    let mut rooms = Vec::with_capacity(alloc, count)?;
    for _ in 0..count {
        rooms.push(Room::new(alloc))?;
    }
    Ok(Table {
        rooms,
        laid: vec![in alloc; false; count]?,
        entered: vec![in alloc; false; count]?,
    })
}

/// The rooms of all adts, in their order.
///
/// # Errors
/// Want of memory. `TooLarge` exactly where an adt holds itself as a value or takes more than 65,536 bytes: the first such.
pub fn lay_all(alloc: Global, defs: &[AdtDef]) -> Result<Vec<Room>, AdtsFault>
    requires held { HoldsOnly (view_defs defs.now) }
    requires few { length defs.now < 2 ^ 32 }
    ensures laid { IfOk result (λ rooms. AreLaid (view_defs defs.now) rooms.items) }
    ensures there { IfErr result (λ e. (n : ℕ) → e ≡ TooLarge n → n < length defs.now) }
    ensures too_large { IfErr result (λ e. (n : ℕ) → e ≡ TooLarge n → Fits (view_defs defs.now) (Adt n) → ⊥) }
    ensures first { IfErr result (λ e. (n m : ℕ) → e ≡ TooLarge n → m < n → Fits (view_defs defs.now) (Adt m)) }
{
    let mut table = empty_table(alloc, defs.len())?;
    for number in 0..defs.len() as u32 {
        if !table.laid[number as usize] {
            lay(alloc, defs, number, &mut table)?;
        }
    }
    let Table {
        rooms,
        laid: _,
        entered: _,
    } = table;
    Ok(rooms)
}
