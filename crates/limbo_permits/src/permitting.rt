//! What may stand anywhere.

ghost use Rattle.std.specs.Prelude.{IfOk, IfErr};
ghost use Rattle.limbo_types.specs.View.{view_ty};
ghost use Rattle.limbo_typed.specs.View.{view_expr, view_node};
ghost use Rattle.limbo_refusals.specs.Refusals.{Refuses, NoneIs};
ghost use Rattle.limbo_allowed.specs.limbo_adts.Table.{defs_of};
ghost use Rattle.limbo_stores.specs.Stores.{RefusesStore};
ghost use Rattle.limbo_context.specs.View.{view_context};
ghost use Rattle.limbo_permits.specs.Permits.{Permits, ForbidsType, IsPermitted, Forbids};

use crate::counting::is_small;
use limbo_allowed::allow;
use limbo_context::Context;
use limbo_refusals::ExprFault;
use limbo_stores::{Store, store};
use limbo_typed::{TExpr, TNode};
use limbo_types::Ty;
use std::alloc::Global;

/// Whether values in a body may have this type.
///
/// # Errors
/// Want of memory. 51 where it holds an `FD` as a value, 53 where a user's module type stands inside it, 55 where it takes more than
/// 65,536 bytes, or has more than 4,096 nodes.
pub fn permit_type(alloc: Global, context: &Context, t: &Ty) -> Result<(), ExprFault>
    ensures permitted { IfOk result (λ _. Permits (view_context context.now) (view_ty t.now)) }
    ensures refused { IfErr result (λ f. Refuses f (ForbidsType (view_context context.now) (view_ty t.now))) }
{
    allow(alloc, &context.adts, context.system, context.fd, t)?;
    if is_small(t) {
        Ok(())
    } else {
        Err(ExprFault::TypeTooLarge)
    }
}

// Whether an expression of this form stores nothing where it may not.
fn permit_store(context: &Context, node: &TNode) -> Result<(), ExprFault>
    ensures permitted { IfOk result (λ _. NoneIs (RefusesStore (defs_of context.now.adts) context.now.fd (view_node node.now))) }
    ensures refused { IfErr result
        (λ f. Refuses f (RefusesStore (defs_of context.now.adts) context.now.fd (view_node node.now))) }
{
    match store(&context.adts, context.fd, node) {
        Store::Allowed => Ok(()),
        Store::Opaque => Err(ExprFault::NotPlace),
        Store::Cyclic => Err(ExprFault::CyclicStore),
    }
}

/// Whether an expression may stand anywhere.
///
/// # Errors
/// Want of memory. What `permit_type` refuses of its type; 51 where it stores into an `FD`, 52 where it could make a heap value reach
/// itself.
pub fn permit(alloc: Global, context: &Context, e: &TExpr) -> Result<(), ExprFault>
    ensures permitted { IfOk result (λ _. IsPermitted (view_context context.now) (view_expr e.now)) }
    ensures refused { IfErr result (λ f. Refuses f (Forbids (view_context context.now) (view_expr e.now))) }
{
    permit_type(alloc, context, &e.ty)?;
    permit_store(context, &e.node)
}
