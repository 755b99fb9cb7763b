//! Heads of arms.

ghost use Rattle.std.specs.Prelude.{◌≡◌, Some, IfOk, IfErr};
ghost use Rattle.limbo_tree.specs.View as source;
ghost use Rattle.limbo_typed.specs.View.{view_alt_head};
ghost use Rattle.limbo_context.specs.View.{view_context, view_body};
ghost use Rattle.limbo_stmt_values.specs.limbo_stating.Alts.{IsAltHead, FailsAltHead};
ghost use Rattle.limbo_stmt_values.specs.Leading.{From, Leads};
ghost use Rattle.limbo_stmt_values.specs.Whys.{FailsFor};
ghost use Rattle.limbo_stmt_values.specs.declared.fault.Why.TheVariants.{BadAlt};

use crate::waiting::waits_for;
use crate::written::is_arm;
use inf_text::Span;
use limbo_context::{Body, Context};
use limbo_stmt_values::limbo_exprs::check;
use limbo_stmt_values::{StmtFault, Why, part_fault};
use limbo_tree::{Expr, span_of};
use limbo_typed::AltHead;
use std::alloc::Global;

// An arm that waits for nothing that it may wait for.
fn bad_alt(at: Span) -> StmtFault
    ensures { result.why ≡ BadAlt }
{
    StmtFault {
        why: Why::BadAlt,
        at,
    }
}

// The head of an arm that is no `*`.
fn written(
    alloc: Global,
    context: &Context,
    body: &mut Body,
    e: &Expr,
) -> Result<AltHead, StmtFault>
    ensures head { IfOk result (λ h. Leads (λ p q. IsAltHead p (Some (source.view_expr e.now)) (view_alt_head h) q)
        (view_context context.now) (view_body body.old) (view_body body.new)) }
    ensures refused { IfErr result (λ f. FailsFor f.why
        (λ k. From (λ p. FailsAltHead p (Some (source.view_expr e.now)) k) (view_context context.now) (view_body body.old))) }
{
    if !is_arm(e) {
        return Err(bad_alt(span_of(e)));
    }
    match check(alloc, context, body, e) {
        Ok(x) => match waits_for(x) {
            Some(head) => Ok(head),
            None => Err(bad_alt(span_of(e))),
        },
        Err(fault) => Err(part_fault(fault)),
    }
}

/// The head of an arm of an `alt`.
///
/// # Errors
/// Those of the expression, and 61 where it is neither a send nor a receive.
pub fn alt_head(
    alloc: Global,
    context: &Context,
    body: &mut Body,
    head: &Option<Box<Expr>>,
) -> Result<AltHead, StmtFault>
    ensures head { IfOk result (λ h. Leads (λ p q. IsAltHead p (source.view_boxed head.now) (view_alt_head h) q)
        (view_context context.now) (view_body body.old) (view_body body.new)) }
    ensures refused { IfErr result (λ f. FailsFor f.why
        (λ k. From (λ p. FailsAltHead p (source.view_boxed head.now) k) (view_context context.now) (view_body body.old))) }
{
    match head {
        None => Ok(AltHead::Any),
        Some(e) => written(alloc, context, body, e),
    }
}
