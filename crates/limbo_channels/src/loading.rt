//! What is loaded.

ghost use Rattle.std.specs.Prelude.{◌≡◌, IfOk, IfErr};
ghost use Rattle.limbo_types.specs.Types.{Chars};
ghost use Rattle.limbo_types.specs.View.{view_ty};
ghost use Rattle.limbo_typed.specs.View.{view_expr};
ghost use Rattle.limbo_refusals.specs.Refusals as refusals;
ghost use Rattle.limbo_refusals.specs.Refusals.{Refuses, NoneIs};
ghost use Rattle.limbo_channels.specs.Loading.{Loads};

use crate::building::{boxed, copied};
use limbo_refusals::{ExprFault, clash_of};
use limbo_standing::settle;
use limbo_typed::{TExpr, TNode};
use limbo_types::Ty;
use std::alloc::Global;

/// `load M path`, of the module type of this number.
///
/// # Errors
/// Refusal 50, and want of memory.
#[tactic(auto, using(limbo_types::proofs::View::the_types, limbo_typed::proofs::View::the_exprs))]
pub fn load(alloc: Global, interface: u32, mut path: Box<TExpr>) -> Result<Box<TExpr>, ExprFault>
    // It is the instance of the module.
    ensures typed { IfOk result (λ e. Loads interface (view_expr path.value) (view_expr e.value)) }
    // Where it is refused, the path is no string.
    ensures refused { IfErr result (λ f. Refuses f (λ r. (r ≡ refusals.Clash (view_ty path.value.ty) Chars)
        × NoneIs (Loads interface (view_expr path.value)))) }
{
    let before = copied(alloc, &path.ty)?;
    if !settle(alloc, &mut path, &Ty::Chars)? {
        return Err(clash_of(alloc, &before, &Ty::Chars));
    }
    Ok(boxed(
        alloc,
        Ty::Module(interface),
        TNode::Load { interface, path },
    )?)
}
