//! Types and expressions in memory of their own.

ghost use Rattle.std.specs.Prelude.{◌≡◌, IfOk};
ghost use Rattle.limbo_types.specs.View.{view_ty};
ghost use Rattle.limbo_typed.specs.Typed.{Of};
ghost use Rattle.limbo_typed.specs.View.{view_expr, view_node};

use limbo_typed::{TExpr, TNode};
use limbo_types::{Ty, copy};
use std::alloc::{AllocError, Global};

/// The same type once more, in memory of its own.
///
/// # Errors
/// Want of memory.
pub(crate) fn copied(alloc: Global, t: &Ty) -> Result<Box<Ty>, AllocError>
    ensures { IfOk result (λ u. view_ty u.value ≡ view_ty t.now) }
{
    Ok(Box::new(alloc, copy(alloc, t)?)?)
}

/// An expression of this type, made of this.
///
/// # Errors
/// Want of memory.
#[tactic(auto, using(limbo_typed::proofs::View::the_exprs))]
pub(crate) fn boxed(alloc: Global, ty: Ty, node: TNode) -> Result<Box<TExpr>, AllocError>
    ensures { IfOk result (λ e. view_expr e.value ≡ Of (view_ty ty) (view_node node)) }
{
    Ok(Box::new(alloc, TExpr { ty, node })?)
}
