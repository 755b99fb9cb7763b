//! Operands that are put together in a slot.

ghost use Rattle.std.specs.Prelude.{◌≡◌, ◌+◌, ◌<◌, ◌≤◌, ◌^◌, ◌++◌, ◌∷◌, [], suc, nat_eq, if◌then◌else◌, IfOk, List, OnOk, Some, None};
ghost use Rattle.std.specs.Prelude.{length};
ghost use Rattle.limbo_types.specs.View.{view_ty};
ghost use Rattle.limbo_layout.specs.Adts.{Def};
ghost use Rattle.core_code.specs.Code as instr;
ghost use Rattle.core_code.specs.Terms as terms;
ghost use Rattle.core_parts.specs.Lowered.{code_of, codes_of};

use crate::drops::Moved;
use crate::lowered::{put, put_all};
use core_data::Inst;
use limbo_types::{Ty, copy};
use std::alloc::{AllocError, Global};

/// What operands are put together as: a value of this type, and variant of an adt, of the parts of these numbers; and where the references
/// of each are then.
#[derive(Drop)]
pub struct Whole {
    pub ty: Ty,
    pub variant: Option<u32>,
    pub parts: Vec<u32>,
    pub moves: Vec<Moved>,
}

// Writes that an operand comes to its part.
fn put_place(
    alloc: Global,
    code: &mut Vec<Inst>,
    whole: &Whole,
    operand: u32,
    part: u32,
    into: u32,
    from: u32,
) -> Result<(), AllocError>
    ensures { OnOk result (code_of code.new.items
        ≡ code_of code.old.items ++ instr.Place (view_ty whole.now.ty) whole.now.variant operand part into from ∷ []) }
{
    let ty = copy(alloc, &whole.ty)?;
    let variant = whole.variant;
    put(
        code,
        Inst::Place {
            ty,
            variant,
            operand,
            part,
            into,
            from,
        },
    )
}

/// The code of operands, each of which comes to its part behind it.
pub fn place(
    alloc: Global,
    each: Vec<Vec<Inst>>,
    slots: &[u32],
    whole: &Whole,
    into: u32,
) -> Result<Vec<Inst>, AllocError>
    ensures { (defs : List Def) → IfOk result (λ code. code_of code.items
        ≡ terms.placed defs (view_ty whole.now.ty) whole.now.variant into 0 whole.now.parts.items (codes_of each.items) slots.now) }
{
    let mut code = Vec::new(alloc);
    let mut operand = 0u32;
    let mut parts = whole.parts.as_slice();
    let mut rest = slots;
    for own in each {
        let Some((part, more)) = parts.split_first() else {
            return Ok(code);
        };
        let Some((from, others)) = rest.split_first() else {
            return Ok(code);
        };
        let Some(next) = operand.checked_add(1) else {
            return Err(AllocError);
        };
        put_all(&mut code, own)?;
        put_place(alloc, &mut code, whole, operand, *part, into, *from)?;
        operand = next;
        parts = more;
        rest = others;
    }
    Ok(code)
}

/// The slot in which operands are put together, where there are any.
pub(crate) fn operands_slot(slots: &[u32], free: u32) -> Option<u32>
    ensures { result ≡ (if nat_eq (length slots.now) 0 then None else Some free) }
{
    if slots.is_empty() { None } else { Some(free) }
}

/// The slot of the value behind it.
pub(crate) fn value_slot(slots: &[u32], free: u32) -> u32
    requires { free + length slots.now + 1 < 2 ^ 32 }
    ensures exact { result ≡ (if nat_eq (length slots.now) 0 then free else suc free) }
    ensures within { result + 1 < 2 ^ 32 }
{
    if slots.is_empty() { free } else { free + 1 }
}
