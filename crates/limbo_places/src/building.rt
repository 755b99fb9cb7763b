//! Types and expressions in memory of their own, and the places that these read.

ghost use Rattle.std.specs.Prelude.{◌≡◌, ◌++◌, [], ◌∷◌, IfOk, IfErr};
ghost use Rattle.limbo_types.specs.View.{view_ty};
ghost use Rattle.limbo_typed.specs.Typed.{Of, Read};
ghost use Rattle.limbo_typed.specs.View.{view_expr, view_node, view_place, view_place_node};
ghost use Rattle.limbo_places.specs.Places.{read, IsNoPlace};

use limbo_typed::{Place, PlaceNode, TExpr, TNode};
use limbo_types::{Ty, copy};
use std::alloc::{AllocError, Global};
use std::mem;

/// The same type once more, in memory of its own.
///
/// # Errors
/// Want of memory.
pub(crate) fn copied(alloc: Global, t: &Ty) -> Result<Box<Ty>, AllocError>
    ensures { IfOk result (λ u. view_ty u.value ≡ view_ty t.now) }
{
    Ok(Box::new(alloc, copy(alloc, t)?)?)
}

/// An expression of this type, made of this.
///
/// # Errors
/// Want of memory.
#[tactic(auto, using(limbo_typed::proofs::View::the_exprs))]
pub(crate) fn boxed(alloc: Global, ty: Ty, node: TNode) -> Result<Box<TExpr>, AllocError>
    ensures { IfOk result (λ e. view_expr e.value ≡ Of (view_ty ty) (view_node node)) }
{
    Ok(Box::new(alloc, TExpr { ty, node })?)
}

/// What stands in a place of this type.
///
/// # Errors
/// Want of memory.
#[tactic(auto, using(limbo_typed::proofs::View::the_exprs))]
pub(crate) fn read(alloc: Global, ty: &Ty, at: PlaceNode) -> Result<Box<TExpr>, AllocError>
    ensures { IfOk result (λ e. view_expr e.value ≡ read (view_ty ty.now) (view_place_node at)) }
{
    let place = Place {
        ty: copy(alloc, ty)?,
        at,
    };
    let place = Box::new(alloc, place)?;
    boxed(alloc, copy(alloc, ty)?, TNode::Read(place))
}

/// Puts an operand behind the others.
///
/// # Errors
/// Want of memory.
pub(crate) fn put(operands: &mut Vec<TExpr>, e: Box<TExpr>) -> Result<(), AllocError>
    ensures { IfOk result (λ _. operands.new.items ≡ operands.old.items ++ e.value ∷ []) }
{
    operands.reserve(1)?;
    operands.push_reserved(Box::into_inner(e));
    Ok(())
}

/// The place that an expression is, or the expression, where it is none.
#[tactic(auto, using(limbo_typed::proofs::View::the_exprs, crate::proofs::Nodes::no_place))]
pub(crate) fn place_of(mut e: Box<TExpr>) -> Result<Box<Place>, Box<TExpr>>
    ensures place { IfOk result (λ p. view_node e.value.node ≡ Read (view_place p.value)) }
    ensures same { IfErr result (λ other. view_expr other.value ≡ view_expr e.value) }
    ensures none { IfErr result (λ _. IsNoPlace (view_node e.value.node)) }
{
    match mem::replace(&mut e.node, TNode::Nil) {
        TNode::Read(place) => Ok(place),
        node => {
            e.node = node;
            Err(e)
        }
    }
}
