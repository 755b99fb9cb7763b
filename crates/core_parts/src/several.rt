//! Lists, and connectives.

ghost use Rattle.std.specs.Prelude.{◌≡◌, ◌+◌, ◌<◌, ◌≤◌, ◌^◌, ◌++◌, suc, IfOk, List, Option, Some, None, OnOk, [], ◌∷◌, if◌then◌else◌};
ghost use Rattle.std.specs.Prelude.{length, reverse, vec_len};
ghost use Rattle.limbo_types.specs.View.{view_ty};
ghost use Rattle.limbo_layout.specs.Adts.{Def};
ghost use Rattle.limbo_meaning.specs.Operations as operations;
ghost use Rattle.core_code.specs.Code.{Mirror};
ghost use Rattle.core_code.specs.Terms as terms;
ghost use Rattle.core_parts.specs.Lowered.{code_of, view_lowered, view_lowered_all};
ghost use Rattle.core_parts.specs.Nodes as nodes;

use crate::lowered::{Lowered, LoweredAll, join, put, put_all};
use core_data::{Inst, Known};
use limbo_typed::Connective;
use limbo_types::{Ty, copy};
use std::alloc::{AllocError, Global};

/// What values of a type are made of or name.
#[tactic(auto, using(limbo_types::proofs::View::the_types, crate::proofs::Items::no_item))]
pub fn item_of(alloc: Global, t: &Ty) -> Result<Ty, AllocError>
    ensures { IfOk result (λ item. view_ty item ≡ operations.item_of (view_ty t.now)) }
{
    match t {
        Ty::Array(item) => copy(alloc, item),
        Ty::List(item) => copy(alloc, item),
        Ty::RefAdt(adt) => Ok(Ty::Adt(*adt)),
        Ty::RefPick { adt, .. } => Ok(Ty::Adt(*adt)),
        _ => copy(alloc, t),
    }
}

/// Writes the cells of a list, the last first.
fn put_cells(
    alloc: Global,
    code: &mut Vec<Inst>,
    item: &Ty,
    items: &[u32],
    free: u32,
) -> Result<(), AllocError>
    requires { free + length items.now < 2 ^ 32 }
    ensures { (defs : List Def) → OnOk result (code_of code.new.items
        ≡ code_of code.old.items ++ terms.cells defs (view_ty item.now) (reverse items.now) None free) }
{
    let mut rest = items;
    let mut behind = None;
    let mut slot = free;
    while let Some((last, front)) = rest.split_last() {
        put(
            code,
            Inst::Cell {
                ty: copy(alloc, item)?,
                into: slot,
                item: *last,
                behind,
            },
        )?;
        rest = front;
        behind = Some(slot);
        slot += 1;
    }
    Ok(())
}

// Writes the drops of a list's cells.
fn put_cell_drops(drops: &mut Vec<Inst>, count: u32, free: u32) -> Result<(), AllocError>
    requires { free + count < 2 ^ 32 }
    ensures { (defs : List Def) → OnOk result (code_of drops.new.items ≡ code_of drops.old.items ++ terms.cell_drops defs count free) }
{
    for i in 0..count {
        put(
            drops,
            Inst::Drop {
                slot: free + i,
                reference: 0,
            },
        )?;
    }
    Ok(())
}

/// A list of items.
pub fn link(alloc: Global, all: LoweredAll, ty: &Ty) -> Result<Lowered, AllocError>
    requires { all.free + vec_len all.values + 1 < 2 ^ 32 }
    ensures { IfOk result (λ l. (defs : List Def) → view_lowered l ≡ terms.links defs (view_ty ty.now) (view_lowered_all all)) }
{
    let LoweredAll {
        each,
        mut drops,
        values,
        free,
    } = all;
    let mut code = join(alloc, each)?;
    let item = item_of(alloc, ty)?;
    let count = values.len() as u32;
    if count == 0 {
        put(
            &mut code,
            Inst::Known {
                value: Known::NoCell,
                into: free,
            },
        )?;
        return Ok(Lowered {
            code,
            drops,
            value: free,
            free: free + 1,
        });
    }
    put_cells(alloc, &mut code, &item, &values, free)?;
    put_cell_drops(&mut drops, count, free)?;
    Ok(Lowered {
        code,
        drops,
        value: free + (count - 1),
        free: free + count,
    })
}

// Where it is decided whether a connective's right operand is evaluated.
fn decision_in(held: bool, slot: u32) -> Option<u32>
    ensures { result ≡ (if held then Some slot else None) }
{
    if held { Some(slot) } else { None }
}

// Writes the drops of a connective's right operand, where it may hold something.
#[tactic(auto, using(crate::proofs::Coded::code_of_length))]
fn put_mirrored(
    drops: &mut Vec<Inst>,
    held: bool,
    decision: u32,
    right: Vec<Inst>,
) -> Result<(), AllocError>
    ensures { OnOk result (code_of drops.new.items
        ≡ code_of drops.old.items ++ terms.drops_if held (Mirror decision (length (code_of right.items)) ∷ code_of right.items)) }
{
    if !held {
        return Ok(());
    }
    put(
        drops,
        Inst::Mirror {
            decision,
            passes: right.len(),
        },
    )?;
    put_all(drops, right)?;
    Ok(())
}

/// A connective of two operands, the right one of which may hold something or not.
#[tactic(auto, using(crate::proofs::Coded::code_of_length))]
pub fn connect(
    connective: Connective,
    held: bool,
    left: Lowered,
    right: Lowered,
) -> Result<Lowered, AllocError>
    requires { right.free + 1 < 2 ^ 32 }
    ensures { IfOk result (λ l. view_lowered l ≡ nodes.connected connective held (view_lowered left) (view_lowered right)) }
{
    let Lowered {
        mut code,
        mut drops,
        value: from,
        free: decision,
    } = left;
    let Lowered {
        code: behind,
        drops: more,
        value,
        free: into,
    } = right;
    let skip = Inst::Skip {
        connective,
        into,
        decision: decision_in(held, decision),
        from,
        passes: behind.len() + 1,
    };
    put(&mut code, skip)?;
    put_all(&mut code, behind)?;
    put(&mut code, Inst::Truth { into, from: value })?;
    put_mirrored(&mut drops, held, decision, more)?;
    Ok(Lowered {
        code,
        drops,
        value: into,
        free: into + 1,
    })
}
