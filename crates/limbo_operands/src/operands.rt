//! Typed operands.

ghost use Rattle.std.specs.Prelude.{◌≡◌, IfOk, IfSome, IfNone};
ghost use Rattle.limbo_types.specs.Types as types;
ghost use Rattle.limbo_types.specs.View.{view_ty};
ghost use Rattle.limbo_typed.specs.Typed.{Of, Read};
ghost use Rattle.limbo_typed.specs.View.{view_expr, view_exprs, view_node, view_place};
ghost use Rattle.limbo_standing.specs.Standing.{Settles};
ghost use Rattle.limbo_refusals.specs.Refusals.{NoneIs};
ghost use Rattle.limbo_operands.specs.Operands.{one, two, IsPlace};

use limbo_standing::settle;
use limbo_typed::{Place, TExpr, TNode};
use limbo_types::Ty;
use std::alloc::{AllocError, Global};

/// One operand.
///
/// # Errors
/// Want of memory.
pub fn one_operand(alloc: Global, operand: Box<TExpr>) -> Result<Vec<TExpr>, AllocError>
    ensures { IfOk result (λ es. view_exprs es.items ≡ one (view_expr operand.value)) }
{
    let mut operands = Vec::with_capacity(alloc, 1)?;
    operands.push_reserved(Box::into_inner(operand));
    Ok(operands)
}

/// Two operands, from the left to the right.
///
/// # Errors
/// Want of memory.
pub fn two_operands(
    alloc: Global,
    left: Box<TExpr>,
    right: Box<TExpr>,
) -> Result<Vec<TExpr>, AllocError>
    ensures { IfOk result (λ es. view_exprs es.items ≡ two (view_expr left.value) (view_expr right.value)) }
{
    let mut operands = Vec::with_capacity(alloc, 2)?;
    operands.push_reserved(Box::into_inner(left));
    operands.push_reserved(Box::into_inner(right));
    Ok(operands)
}

/// A value as what it is where a type is asked for, if it stands there.
///
/// # Errors
/// Want of memory.
pub fn settled_as(
    alloc: Global,
    mut value: Box<TExpr>,
    asked: &Ty,
) -> Result<Option<Box<TExpr>>, AllocError>
    ensures found { IfOk result (λ o. IfSome o (λ e. Settles (view_ty asked.now) (view_expr value.value) (view_expr e.value))) }
    ensures none { IfOk result (λ o. IfNone o (NoneIs (Settles (view_ty asked.now) (view_expr value.value)))) }
{
    if settle(alloc, &mut value, asked)? {
        Ok(Some(value))
    } else {
        Ok(None)
    }
}

// The place of a node that reads one.
#[tactic(auto, using(limbo_typed::proofs::View::the_exprs))]
fn place_in(node: TNode) -> Option<Box<Place>>
    ensures found { IfSome result (λ p. view_node node ≡ Read (view_place p.value)) }
    ensures none { IfNone result ((t : types.Ty) → IsPlace (Of t (view_node node)) → ⊥) }
{
    match node {
        TNode::Read(place) => Some(place),
        _ => None,
    }
}

/// The place of an expression that is one.
pub fn place_of(e: Box<TExpr>) -> Option<Box<Place>>
    ensures found { IfSome result (λ p. view_expr e.value ≡ Of (view_ty e.value.ty) (Read (view_place p.value))) }
    ensures none { IfNone result (IsPlace (view_expr e.value) → ⊥) }
{
    place_in(Box::into_inner(e).node)
}
