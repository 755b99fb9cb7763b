//! What is sent and received.

ghost use Rattle.std.specs.Prelude.{◌≡◌, IfOk, IfErr, option_map};
ghost use Rattle.limbo_types.specs.View.{view_ty};
ghost use Rattle.limbo_typed.specs.View.{view_expr};
ghost use Rattle.limbo_refusals.specs.Refusals as refusals;
ghost use Rattle.limbo_refusals.specs.Refusals.{Refuses, NoneIs};
ghost use Rattle.limbo_channels.specs.Channels.{Sends, Receives};
ghost use Rattle.limbo_channels.specs.Choosing as choosing;

use crate::building::{boxed, copied};
use limbo_forms::is_settled;
use limbo_refusals::{ExprFault, clash_of};
use limbo_standing::settle;
use limbo_typed::{TExpr, TNode};
use limbo_types::{Ty, copy};
use std::alloc::{AllocError, Global};

// The type of what a channel carries, where it is known.
#[tactic(auto, using(limbo_types::proofs::View::the_types, crate::proofs::Forms::none_carried))]
fn carried(t: &Ty) -> Option<&Ty>
    ensures { option_map (λ c. view_ty c.now) result ≡ choosing.carried (view_ty t.now) }
{
    match t {
        Ty::Chan(item) => { if is_settled(item) { Some(item) } else { None } }
        _ => None,
    }
}

// The type of the index of a channel and of what it carries.
#[tactic(auto, using(limbo_types::proofs::View::the_types))]
fn indexed(alloc: Global, t: &Ty) -> Result<Ty, AllocError>
    ensures { IfOk result (λ u. view_ty u ≡ choosing.indexed (view_ty t.now)) }
{
    let item = copy(alloc, t)?;
    Ok(Ty::Tuple(vec![in alloc; Ty::Int, item]?))
}

// The type of what is received from a channel, or from an array of channels.
#[tactic(auto, using(limbo_types::proofs::View::the_types, crate::proofs::Forms::none_received))]
fn received(alloc: Global, t: &Ty) -> Result<Option<Ty>, AllocError>
    ensures { IfOk result (λ r. option_map view_ty r ≡ choosing.received (view_ty t.now)) }
{
    if let Some(item) = carried(t) {
        return Ok(Some(copy(alloc, item)?));
    }
    match t {
        Ty::Array(channel) => match carried(channel) {
            Some(item) => Ok(Some(indexed(alloc, item)?)),
            None => Ok(None),
        },
        _ => Ok(None),
    }
}

/// `<-channel`, from a channel or from any channel of an array.
///
/// # Errors
/// Refusal 50, and want of memory.
#[tactic(auto, using(limbo_typed::proofs::View::the_exprs))]
pub fn receive(alloc: Global, channel: Box<TExpr>) -> Result<Box<TExpr>, ExprFault>
    // It is what is received.
    ensures typed { IfOk result (λ e. Receives (view_expr channel.value) (view_expr e.value)) }
    // Where it is refused, nothing is received from this.
    ensures refused { IfErr result (λ f. Refuses f (λ r. (r ≡ refusals.Clash (view_ty channel.value.ty) (view_ty channel.value.ty))
        × NoneIs (Receives (view_expr channel.value)))) }
{
    let Some(ty) = received(alloc, &channel.ty)? else {
        return Err(clash_of(alloc, &channel.ty, &channel.ty));
    };
    Ok(boxed(alloc, ty, TNode::Receive { channel })?)
}

/// `channel <-= value`
///
/// # Errors
/// Refusal 50, and want of memory.
#[tactic(auto, using(limbo_typed::proofs::View::the_exprs))]
pub fn send(
    alloc: Global,
    channel: Box<TExpr>,
    mut value: Box<TExpr>,
) -> Result<Box<TExpr>, ExprFault>
    // It is what is sent.
    ensures typed { IfOk result (λ e. Sends (view_expr channel.value) (view_expr value.value) (view_expr e.value)) }
    // Where it is refused, the value can't be sent on this.
    ensures refused { IfErr result (λ f. Refuses f (λ r. (r ≡ refusals.Clash (view_ty channel.value.ty) (view_ty value.value.ty))
        × NoneIs (Sends (view_expr channel.value) (view_expr value.value)))) }
{
    let Some(item) = carried(&channel.ty) else {
        return Err(clash_of(alloc, &channel.ty, &value.ty));
    };
    let item = copied(alloc, item)?;
    let before = copied(alloc, &value.ty)?;
    if !settle(alloc, &mut value, &item)? {
        return Err(clash_of(alloc, &channel.ty, &before));
    }
    let ty = Box::into_inner(item);
    Ok(boxed(alloc, ty, TNode::Send { channel, value })?)
}
