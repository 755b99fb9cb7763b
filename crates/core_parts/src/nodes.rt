//! Nodes behind their operands.

ghost use Rattle.std.specs.Prelude.{◌≡◌, ◌+◌, ◌<◌, ◌≤◌, ◌^◌, ◌++◌, IfOk, List, Option, None, OnOk, length, map, option_map, reverse};
ghost use Rattle.std.specs.Prelude.{vec_len};
ghost use Rattle.limbo_types.specs.View.{view_ty};
ghost use Rattle.limbo_types.specs.Types.{Ty as Typed};
ghost use Rattle.limbo_layout.specs.Adts.{Def};
ghost use Rattle.limbo_meaning.specs.Trees.{Assign, Copy};
ghost use Rattle.core_data.specs.View.{view_way, view_work};
ghost use Rattle.core_code.specs.Terms as terms;
ghost use Rattle.core_code.specs.Terms.{drops_after_all, slot_at};
ghost use Rattle.core_parts.specs.Aims.{view_aim};
ghost use Rattle.core_parts.specs.Lowered.{code_of, view_lowered, view_lowered_all};
ghost use Rattle.core_parts.specs.Nodes as nodes;
ghost use Rattle.core_parts.specs.Nodes.{view_moved, view_whole, AllFit};

use crate::aims::{Aim, assigned, put_writes};
use crate::drops::{Moved, move_all, move_drops, put_drops};
use crate::lowered::{Lowered, LoweredAll, join, put};
use crate::together::{Whole, operands_slot, place, value_slot};
use core_data::{Inst, Work};
use limbo_typed::{Operation, Piece};
use limbo_types::Ty;
use std::alloc::{AllocError, Global};

/// A node that gives a value into a slot of its own, with so many references that it gets.
pub fn give(
    alloc: Global,
    all: LoweredAll,
    ty: Ty,
    work: Work,
    references: u32,
) -> Result<Lowered, AllocError>
    requires { all.free + 1 < 2 ^ 32 }
    ensures { IfOk result (λ l. view_lowered l ≡ nodes.gave (view_ty ty) (view_work work) references (view_lowered_all all)) }
{
    let LoweredAll {
        each,
        mut drops,
        values,
        free,
    } = all;
    let mut code = join(alloc, each)?;
    put(
        &mut code,
        Inst::Give {
            ty,
            work,
            into: free,
            from: values,
        },
    )?;
    put_drops(&mut drops, free, references)?;
    Ok(Lowered {
        code,
        drops,
        value: free,
        free: free + 1,
    })
}

/// A tuple or an adt's value, into which its operands move.
pub fn gather(
    alloc: Global,
    all: LoweredAll,
    operation: Operation,
    whole: Whole,
) -> Result<Lowered, AllocError>
    requires room { all.free + vec_len all.values + 1 < 2 ^ 32 }
    requires moved { AllFit whole.moves.items }
    ensures { (defs : List Def) → IfOk result (λ l. view_lowered l
        ≡ nodes.gathered defs operation (view_whole whole) (view_lowered_all all)) }
{
    let LoweredAll {
        each,
        mut drops,
        values,
        free,
    } = all;
    let mut code = place(alloc, each, &values, &whole, free)?;
    move_all(&mut drops, &whole.moves);
    put(
        &mut code,
        Inst::Gather {
            ty: whole.ty,
            operation,
            into: free,
            operands: values.len() as u32,
        },
    )?;
    Ok(Lowered {
        code,
        drops,
        value: free,
        free: free + 1,
    })
}

/// A call, whose operands are put together and whose answer has so many references.
pub fn call(
    alloc: Global,
    all: LoweredAll,
    ty: Ty,
    function: u32,
    references: u32,
    whole: &Whole,
) -> Result<Lowered, AllocError>
    requires room { all.free + vec_len all.values + 1 < 2 ^ 32 }
    requires moved { AllFit whole.now.moves.items }
    ensures { (defs : List Def) → IfOk result (λ l. view_lowered l
        ≡ nodes.called defs (view_ty ty) function references (view_whole whole.now) (view_lowered_all all)) }
{
    let LoweredAll {
        each,
        mut drops,
        values,
        free,
    } = all;
    let mut code = place(alloc, each, &values, whole, free)?;
    let into = value_slot(&values, free);
    let operands = operands_slot(&values, free);
    put(
        &mut code,
        Inst::Call {
            ty,
            function,
            into,
            operands,
        },
    )?;
    move_all(&mut drops, &whole.moves);
    put_drops(&mut drops, into, references)?;
    Ok(Lowered {
        code,
        drops,
        value: into,
        free: into + 1,
    })
}

/// A print, whose operands are put together.
pub fn print(
    alloc: Global,
    all: LoweredAll,
    pieces: Vec<Piece>,
    whole: &Whole,
) -> Result<Lowered, AllocError>
    requires room { all.free + vec_len all.values + 1 < 2 ^ 32 }
    requires moved { AllFit whole.now.moves.items }
    ensures { (defs : List Def) → IfOk result (λ l. view_lowered l
        ≡ nodes.printed defs pieces.items (view_whole whole.now) (view_lowered_all all)) }
{
    let LoweredAll {
        each,
        mut drops,
        values,
        free,
    } = all;
    let mut code = place(alloc, each, &values, whole, free)?;
    let into = value_slot(&values, free);
    let operands = operands_slot(&values, free);
    put(
        &mut code,
        Inst::Print {
            pieces,
            into,
            operands,
        },
    )?;
    move_all(&mut drops, &whole.moves);
    Ok(Lowered {
        code,
        drops,
        value: into,
        free: into + 1,
    })
}

/// A part of the only operand, which moves.
pub fn pick(
    alloc: Global,
    all: LoweredAll,
    ty: Ty,
    part: u32,
    moved: Moved,
) -> Result<Lowered, AllocError>
    requires free { all.free + 1 < 2 ^ 32 }
    requires moved { moved.at + moved.count ≤ 2 ^ 32 }
    ensures { IfOk result (λ l. view_lowered l ≡ nodes.picked (view_ty ty) part (view_moved moved) (view_lowered_all all)) }
{
    let LoweredAll {
        each,
        mut drops,
        values,
        free,
    } = all;
    let mut code = join(alloc, each)?;
    let from = slot_in(&values, 0);
    put(
        &mut code,
        Inst::Pick {
            ty,
            part,
            into: free,
            from,
        },
    )?;
    move_drops(&mut drops, moved);
    Ok(Lowered {
        code,
        drops,
        value: free,
        free: free + 1,
    })
}

/// The slot of an operand.
pub fn slot_in(slots: &[u32], number: usize) -> u32
    ensures { result ≡ slot_at number slots.now }
{
    match slots.get(number) {
        Some(slot) => *slot,
        None => 0,
    }
}

/// A copy of an array's elements into another array.
pub fn copy_into(alloc: Global, all: LoweredAll) -> Result<Lowered, AllocError>
    ensures { IfOk result (λ l. (defs : List Def) (us : List Typed) (t : Typed)
        → view_lowered l ≡ terms.node defs us t Copy (view_lowered_all all)) }
{
    let LoweredAll {
        each,
        drops,
        values,
        free,
    } = all;
    let mut code = join(alloc, each)?;
    let array = slot_in(&values, 0);
    let start = slot_in(&values, 1);
    let from = slot_in(&values, 2);
    put(&mut code, Inst::CopyInto { array, start, from })?;
    Ok(Lowered {
        code,
        drops,
        value: from,
        free,
    })
}

/// An assignment to places.
pub fn assign(alloc: Global, all: LoweredAll, aims: Vec<Aim>) -> Result<Lowered, AllocError>
    ensures { IfOk result (λ l. (defs : List Def) (us : List Typed) (t : Typed)
        → view_lowered l ≡ terms.node defs us t (Assign (map view_aim aims.items)) (view_lowered_all all)) }
{
    let LoweredAll {
        each,
        drops,
        values,
        free,
    } = all;
    let mut code = join(alloc, each)?;
    let value = assigned(&aims, &values);
    put_writes(alloc, &mut code, aims, &values, value)?;
    Ok(Lowered {
        code,
        drops,
        value,
        free,
    })
}
