//! Places that are read and written.

ghost use Rattle.std.specs.Prelude.{◌≡◌, ◌+◌, ◌<◌, ◌^◌, ◌++◌, ◌∷◌, [], suc, IfOk, OnOk};
ghost use Rattle.limbo_types.specs.View.{view_ty};
ghost use Rattle.limbo_meaning.specs.Trees.{Operate, Read};
ghost use Rattle.core_data.specs.View.{view_way};
ghost use Rattle.core_code.specs.Code as instr;
ghost use Rattle.core_code.specs.Terms.{drops_from};
ghost use Rattle.core_parts.specs.Lowered.{code_of, view_lowered, view_lowered_all};
ghost use Rattle.core_parts.specs.Nodes as nodes;

use crate::copying::copy_way;
use crate::drops::put_drops;
use crate::lowered::{Lowered, LoweredAll, join, put, put_all};
use core_data::{Inst, Way, Work};
use limbo_typed::{Given, Operation};
use limbo_types::{Ty, copy};
use std::alloc::{AllocError, Global};

/// A place that is read and written.
#[derive(Clone, Copy)]
pub struct Change<'a> {
    pub operation: Operation,
    pub given: Given,
    pub ty: &'a Ty,
    pub way: &'a Way,
    /// How many references its old value has.
    pub old: u32,
    /// How many references the operation gives that are got.
    pub new: u32,
}

// Writes the read of a place.
fn put_read(
    alloc: Global,
    code: &mut Vec<Inst>,
    ty: &Ty,
    way: &Way,
    operands: &[u32],
    into: u32,
) -> Result<(), AllocError>
    ensures { OnOk result (code_of code.new.items
        ≡ code_of code.old.items ++ instr.Give (view_ty ty.now) (Read (view_way way.now)) into operands.now ∷ []) }
{
    let ty = copy(alloc, ty)?;
    let way = copy_way(alloc, way)?;
    let from = Vec::from_slice(alloc, operands)?;
    put(
        code,
        Inst::Give {
            ty,
            work: Work::Read(way),
            into,
            from,
        },
    )
}

// One slot, and then others.
fn slots_behind(alloc: Global, first: u32, others: &[u32]) -> Result<Vec<u32>, AllocError>
    ensures { IfOk result (λ v. v.items ≡ first ∷ others.now) }
{
    let mut all = Vec::new(alloc);
    all.push(first)?;
    all.extend_from_slice(others)?;
    Ok(all)
}

// Writes the operation on a place's old value and others.
fn put_change(
    alloc: Global,
    code: &mut Vec<Inst>,
    ty: &Ty,
    operation: Operation,
    old: u32,
    others: &[u32],
    into: u32,
) -> Result<(), AllocError>
    ensures { OnOk result (code_of code.new.items
        ≡ code_of code.old.items ++ instr.Give (view_ty ty.now) (Operate operation) into (old ∷ others.now) ∷ []) }
{
    let ty = copy(alloc, ty)?;
    let from = slots_behind(alloc, old, others)?;
    put(
        code,
        Inst::Give {
            ty,
            work: Work::Operate(operation),
            into,
            from,
        },
    )
}

// Writes the write of a whole value.
fn put_write(
    alloc: Global,
    code: &mut Vec<Inst>,
    ty: &Ty,
    way: &Way,
    operands: Vec<u32>,
    from: u32,
) -> Result<(), AllocError>
    ensures { OnOk result (code_of code.new.items
        ≡ code_of code.old.items ++ instr.Write (view_ty ty.now) (view_way way.now) operands.items [] from ∷ []) }
{
    let ty = copy(alloc, ty)?;
    let way = copy_way(alloc, way)?;
    put(
        code,
        Inst::Write {
            ty,
            way,
            operands,
            part: Vec::new(alloc),
            from,
        },
    )
}

/// A place that is read and written, behind its operands and those of the operation.
pub fn update(
    alloc: Global,
    change: &Change<'_>,
    place: LoweredAll,
    others: LoweredAll,
) -> Result<Lowered, AllocError>
    requires { others.free + 1 < 2 ^ 32 }
    ensures { IfOk result (λ l. view_lowered l
        ≡ nodes.updated change.now.operation change.now.given (view_ty change.now.ty.now) (view_way change.now.way.now)
        change.now.old change.now.new (view_lowered_all place) (view_lowered_all others)) }
{
    let LoweredAll {
        each: first,
        mut drops,
        values: operands,
        free: old,
    } = place;
    let LoweredAll {
        each: second,
        drops: more,
        values,
        free: new,
    } = others;
    let mut code = join(alloc, first)?;
    put_read(alloc, &mut code, change.ty, change.way, &operands, old)?;
    let between = join(alloc, second)?;
    put_all(&mut code, between)?;
    put_change(
        alloc,
        &mut code,
        change.ty,
        change.operation,
        old,
        &values,
        new,
    )?;
    put_write(alloc, &mut code, change.ty, change.way, operands, new)?;
    put_drops(&mut drops, old, change.old)?;
    put_all(&mut drops, more)?;
    put_drops(&mut drops, new, change.new)?;
    let value = match change.given {
        Given::Old => old,
        Given::New => new,
    };
    Ok(Lowered {
        code,
        drops,
        value,
        free: new + 1,
    })
}
