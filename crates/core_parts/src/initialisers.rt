//! Arrays that are filled, and the loops of elements that aren't named.

ghost use Rattle.std.specs.Prelude.{◌≡◌, ◌+◌, ◌<◌, ◌^◌, true, false, IfOk, List, OnOk};
ghost use Rattle.limbo_types.specs.Types.{ArrayOf};
ghost use Rattle.limbo_types.specs.View.{view_ty};
ghost use Rattle.limbo_layout.specs.Adts.{Def};
ghost use Rattle.core_code.specs.Terms as terms;
ghost use Rattle.core_parts.specs.Lowered.{code_of, view_lowered};
ghost use Rattle.core_parts.specs.Nodes as nodes;

use crate::lowered::{Lowered, put, put_all};
use core_data::{Inst, Work};
use limbo_typed::Operation;
use limbo_types::{Ty, copy};
use std::alloc::{AllocError, Global};

/// The type of an array of these.
#[tactic(auto, using(limbo_types::proofs::View::the_types))]
pub fn array_of(alloc: Global, item: &Ty) -> Result<Ty, AllocError>
    ensures { IfOk result (λ t. view_ty t ≡ ArrayOf (view_ty item.now)) }
{
    Ok(Ty::Array(Box::new(alloc, copy(alloc, item)?)?))
}

/// A new array behind its length, and its elements: those that are named, and the others.
pub fn fill(
    alloc: Global,
    item: &Ty,
    length: Lowered,
    elements: Lowered,
    others: Lowered,
) -> Result<Lowered, AllocError>
    ensures { IfOk result (λ l. view_lowered l
        ≡ nodes.filled (view_ty item.now) (view_lowered length) (view_lowered elements) (view_lowered others)) }
{
    let Lowered {
        mut code,
        mut drops,
        value,
        free: array,
    } = length;
    let ty = array_of(alloc, item)?;
    let from = Vec::from_slice(alloc, &[value])?;
    put(
        &mut code,
        Inst::Give {
            ty,
            work: Work::Operate(Operation::NewArray),
            into: array,
            from,
        },
    )?;
    put_all(&mut code, elements.code)?;
    put_all(&mut code, others.code)?;
    put(
        &mut drops,
        Inst::Drop {
            slot: array,
            reference: 0,
        },
    )?;
    put_all(&mut drops, elements.drops)?;
    put_all(&mut drops, others.drops)?;
    Ok(Lowered {
        code,
        drops,
        value: array,
        free: others.free,
    })
}

/// Stores one element more, which may hold something or not.
pub fn store(
    alloc: Global,
    sum: &mut Lowered,
    item: &Ty,
    index: i64,
    element: Lowered,
    held: bool,
) -> Result<(), AllocError>
    ensures { OnOk result (view_lowered sum.new
        ≡ nodes.stored (view_ty item.now) index held (view_lowered sum.old) (view_lowered element)) }
{
    let Lowered {
        code,
        drops,
        value,
        free,
    } = element;
    let ty = copy(alloc, item)?;
    put_all(&mut sum.code, code)?;
    put(
        &mut sum.code,
        Inst::Element {
            ty,
            array: sum.value,
            index,
            from: value,
        },
    )?;
    put_all(&mut sum.drops, drops)?;
    if held {
        sum.free = free;
    }
    Ok(())
}

// The turns of a loop, between its start and the way back.
#[tactic(auto, using(crate::proofs::Coded::code_of_length))]
fn turns_of(
    alloc: Global,
    array: u32,
    named: Vec<i64>,
    turns: u32,
    turn: Vec<Inst>,
) -> Result<Vec<Inst>, AllocError>
    ensures { IfOk result (λ v. code_of v.items ≡ nodes.turns array named.items turns (code_of turn.items)) }
{
    let steps = turn.len() + 1;
    let mut code = Vec::new(alloc);
    put(&mut code, Inst::Start { turns })?;
    put(
        &mut code,
        Inst::Next {
            array,
            turns,
            named,
            passes: steps,
        },
    )?;
    put_all(&mut code, turn)?;
    put(&mut code, Inst::Back { steps })?;
    Ok(code)
}

// The drops of what the turns of a loop held.
#[tactic(auto, using(crate::proofs::Coded::code_of_length))]
fn turned_back(
    alloc: Global,
    turns: u32,
    from: u32,
    words: u32,
    drops: Vec<Inst>,
) -> Result<Vec<Inst>, AllocError>
    ensures { IfOk result (λ v. code_of v.items ≡ nodes.turned_back turns from words (code_of drops.items)) }
{
    let steps = drops.len() + 1;
    let mut all = Vec::new(alloc);
    put(
        &mut all,
        Inst::Take {
            turns,
            from,
            words,
            passes: steps,
        },
    )?;
    put_all(&mut all, drops)?;
    put(&mut all, Inst::Back { steps })?;
    Ok(all)
}

/// The element of `*` of which each turn may hold something, in a loop.
pub fn chain_others(
    alloc: Global,
    item: &Ty,
    array: u32,
    named: Vec<i64>,
    turns: u32,
    element: Lowered,
) -> Result<Lowered, AllocError>
    requires { turns + 1 < 2 ^ 32 }
    ensures { IfOk result (λ l. (defs : List Def)
        → view_lowered l ≡ terms.others defs true (view_ty item.now) array named.items turns (view_lowered element)) }
{
    let Lowered {
        mut code,
        drops,
        value,
        free,
    } = element;
    let from = turns + 1;
    let words = free.saturating_sub(from);
    let ty = copy(alloc, item)?;
    put(
        &mut code,
        Inst::Other {
            ty,
            array,
            turns,
            from: value,
        },
    )?;
    put(&mut code, Inst::Keep { turns, from, words })?;
    Ok(Lowered {
        code: turns_of(alloc, array, named, turns, code)?,
        drops: turned_back(alloc, turns, from, words, drops)?,
        value: array,
        free,
    })
}

/// The element of `*` of which no turn holds anything, in a loop.
pub fn repeat_others(
    alloc: Global,
    item: &Ty,
    array: u32,
    named: Vec<i64>,
    turns: u32,
    element: Lowered,
) -> Result<Lowered, AllocError>
    requires { turns + 1 < 2 ^ 32 }
    ensures { IfOk result (λ l. (defs : List Def)
        → view_lowered l ≡ terms.others defs false (view_ty item.now) array named.items turns (view_lowered element)) }
{
    let Lowered {
        mut code,
        value,
        ..
    } = element;
    let ty = copy(alloc, item)?;
    put(
        &mut code,
        Inst::Other {
            ty,
            array,
            turns,
            from: value,
        },
    )?;
    Ok(Lowered {
        code: turns_of(alloc, array, named, turns, code)?,
        drops: Vec::new(alloc),
        value: array,
        free: turns + 1,
    })
}
