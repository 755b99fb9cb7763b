//! What operators give of typed operands.

ghost use Rattle.std.specs.Prelude.{IfOk, IfErr};
ghost use Rattle.limbo_typed.specs.View.{view_expr};
ghost use Rattle.limbo_context.specs.View.{view_context};
ghost use Rattle.limbo_refusals.specs.Refusals.{Refuses, NoneIs};
ghost use Rattle.limbo_value_forms.specs.Forms.{Before, RefusesBefore, Gives, RefusesGives};

use limbo_channels::{receive, send};
use limbo_combining::operate;
use limbo_context::Context;
use limbo_places::{dereference, refer, step};
use limbo_refusals::ExprFault;
use limbo_tree::{AssignOp, PostfixOp, UnaryOp};
use limbo_typed::{Given, TExpr};
use limbo_updating::update;
use std::alloc::Global;

/// `op operand`: what an operator before a typed operand gives.
///
/// # Errors
/// Want of memory; refusal 50 where the operand's type doesn't fit, and 51 where `++` or `--` stands before what is no place.
pub fn before(
    alloc: Global,
    context: &Context,
    op: UnaryOp,
    operand: Box<TExpr>,
) -> Result<Box<TExpr>, ExprFault>
    // It is what the operator gives.
    ensures typed { IfOk result (λ e. Before (view_context context.now) op (view_expr operand.value) (view_expr e.value)) }
    // Where it is refused, the operator gives nothing.
    ensures refused { IfErr result (λ f. Refuses f (λ r. RefusesBefore (view_context context.now) op (view_expr operand.value) r
        × NoneIs (Before (view_context context.now) op (view_expr operand.value)))) }
{
    match op {
        UnaryOp::Deref => dereference(alloc, operand),
        UnaryOp::Ref => refer(alloc, operand),
        UnaryOp::Receive => receive(alloc, operand),
        UnaryOp::Increment => step(alloc, PostfixOp::Increment, Given::New, operand),
        UnaryOp::Decrement => step(alloc, PostfixOp::Decrement, Given::New, operand),
        _ => operate(alloc, context.adts.defs(), op, operand),
    }
}

/// A send, or an assignment with an operator, of typed sides.
///
/// # Errors
/// Want of memory; refusal 50 where the types don't fit, and 51 where what is to change is no place.
pub fn give(
    alloc: Global,
    op: AssignOp,
    left: Box<TExpr>,
    right: Box<TExpr>,
) -> Result<Box<TExpr>, ExprFault>
    // It is what is given.
    ensures typed { IfOk result (λ e. Gives op (view_expr left.value) (view_expr right.value) (view_expr e.value)) }
    // Where it is refused, nothing is.
    ensures refused { IfErr result (λ f. Refuses f (λ r. RefusesGives op (view_expr left.value) (view_expr right.value) r
        × NoneIs (Gives op (view_expr left.value) (view_expr right.value)))) }
{
    match op {
        AssignOp::Send => send(alloc, left, right),
        _ => update(alloc, op, left, right),
    }
}
