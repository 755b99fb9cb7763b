//! `++` and `--`.

ghost use Rattle.std.specs.Prelude.{◌≡◌, [], IfOk, IfErr, IfSome, IfNone};
ghost use Rattle.limbo_types.specs.View.{view_ty};
ghost use Rattle.limbo_typed.specs.View.{view_expr};
ghost use Rattle.limbo_prefixes.specs.Rows as rows;
ghost use Rattle.limbo_prefixes.specs.Rows.{UnaryRow};
ghost use Rattle.limbo_refusals.specs.Refusals.{Refuses, NoneIs};
ghost use Rattle.limbo_places.specs.Steps.{Steps, not_stepped};

use crate::building::{boxed, copied, place_of};
use limbo_prefixes::{before_of, unary_row};
use limbo_refusals::{ExprFault, clash_of};
use limbo_tree::PostfixOp;
use limbo_typed::{Given, Operation, TExpr, TNode};
use limbo_types::Ty;
use std::alloc::{AllocError, Global};

// What `++` or `--` does with a value of a type, if it does anything.
fn stepping(alloc: Global, op: PostfixOp, t: &Ty) -> Result<Option<Operation>, AllocError>
    ensures found { IfOk result (λ o. IfSome o (λ operation. (row : rows.OneRow) × UnaryRow [] (rows.before_of op) (view_ty t.now) row
        × (operation ≡ row.operation))) }
    ensures none { IfOk result (λ o. IfNone o ((row : rows.OneRow) → UnaryRow [] (rows.before_of op) (view_ty t.now) row → ⊥)) }
{
    match unary_row(alloc, &[], before_of(op), t)? {
        Some(row) => Ok(Some(row.operation)),
        None => Ok(None),
    }
}

/// `++place` and `--place`, which give the new value, and `place++` and `place--`, which give the old one.
///
/// # Errors
/// Refusals 50 and 51, and want of memory.
pub fn step(
    alloc: Global,
    op: PostfixOp,
    given: Given,
    e: Box<TExpr>,
) -> Result<Box<TExpr>, ExprFault>
    // It is the step.
    ensures typed { IfOk result (λ s. Steps op given (view_expr e.value) (view_expr s.value)) }
    // Where it is refused, it is no place, or one of another type.
    ensures refused { IfErr result (λ f. Refuses f (λ r. (r ≡ not_stepped (view_expr e.value))
        × NoneIs (Steps op given (view_expr e.value)))) }
{
    let ty = copied(alloc, &e.ty)?;
    let Ok(place) = place_of(e) else {
        return Err(ExprFault::NotPlace);
    };
    let Some(operation) = stepping(alloc, op, &ty)? else {
        return Err(clash_of(alloc, &ty, &ty));
    };
    let node = TNode::Step {
        operation,
        given,
        place,
    };
    Ok(boxed(alloc, Box::into_inner(ty), node)?)
}
