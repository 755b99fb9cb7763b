//! Labels of a `case`.

ghost use Rattle.std.specs.Prelude.{◌≡◌, None, Some, IfOk, IfErr};
ghost use Rattle.limbo_tree.specs.View as source;
ghost use Rattle.limbo_types.specs.View.{view_ty};
ghost use Rattle.limbo_typed.specs.View.{view_expr};
ghost use Rattle.limbo_typed.specs.Sound.{type_of};
ghost use Rattle.limbo_folding.specs.Folding.{value_of};
ghost use Rattle.limbo_context.specs.View.{view_context, view_body};
ghost use Rattle.limbo_tree.specs.Stmts as stmts;
ghost use Rattle.limbo_stating.specs.Reasons.{CaseOverlap};
ghost use Rattle.limbo_stating.specs.Cases.{IsLabel, FailsLabel, IsPattern, FailsPattern};
ghost use Rattle.limbo_typed.specs.declared.stmt.CasePattern.TheVariants.{Range};
ghost use Rattle.limbo_stmt_values.specs.Leading.{From, Leads};
ghost use Rattle.limbo_stmt_values.specs.Whys.{FailsFor};
ghost use Rattle.limbo_stmt_values.specs.Labels.{IsNoLabel};

use crate::endings::clash;
use crate::fault::{StmtFault, Why, part_fault};
use inf_text::Span;
use limbo_causes::TypingFault;
use limbo_context::{Body, Context};
use limbo_exprs::value;
use limbo_folding::fold;
use limbo_tree::{Expr, Pattern, span_of};
use limbo_typed::{CasePattern, Constant, TExpr};
use limbo_types::{Ty, equal};
use std::alloc::Global;

// The constant that an expression is.
fn constant_of(alloc: Global, x: &TExpr, at: Span) -> Result<Constant, StmtFault>
    ensures known { IfOk result (λ v. value_of (view_expr x.now) ≡ Some v) }
    ensures refused { IfErr result (λ f. FailsFor f.why (λ k. (k ≡ CaseOverlap) × (value_of (view_expr x.now) ≡ None))) }
{
    match fold(alloc, x) {
        Ok(Some(constant)) => Ok(constant),
        Ok(None) => Err(StmtFault {
            why: Why::CaseOverlap,
            at,
        }),
        Err(_) => Err(part_fault(TypingFault::no_memory())),
    }
}

// The label that an expression is, of a type.
fn label_of(alloc: Global, x: &TExpr, t: &Ty, at: Span) -> Result<Constant, StmtFault>
    ensures of { IfOk result (λ _. type_of (view_expr x.now) ≡ view_ty t.now) }
    ensures known { IfOk result (λ v. value_of (view_expr x.now) ≡ Some v) }
    ensures refused { IfErr result (λ f. FailsFor f.why (IsNoLabel (view_ty t.now) (view_expr x.now))) }
{
    if equal(&x.ty, t) {
        constant_of(alloc, x, at)
    } else {
        Err(part_fault(clash(alloc, x, t, at)))
    }
}

/// A label of a `case` of values of a type.
///
/// # Errors
/// Those of the expression, 50 where it has another type, and 60 where it isn't constant.
pub fn label(
    alloc: Global,
    context: &Context,
    body: &mut Body,
    e: &Expr,
    t: &Ty,
) -> Result<Constant, StmtFault>
    ensures labels { IfOk result (λ v. Leads (λ p q. IsLabel (view_ty t.now) p (source.view_expr e.now) v q)
        (view_context context.now) (view_body body.old) (view_body body.new)) }
    ensures refused { IfErr result (λ f. FailsFor f.why
        (λ k. From (λ p. FailsLabel (view_ty t.now) p (source.view_expr e.now) k) (view_context context.now) (view_body body.old))) }
{
    match value(alloc, context, body, e) {
        Ok(x) => label_of(alloc, &x, t, span_of(e)),
        Err(fault) => Err(part_fault(fault)),
    }
}

// A pattern of one label.
fn single(
    alloc: Global,
    context: &Context,
    body: &mut Body,
    e: &Expr,
    t: &Ty,
) -> Result<CasePattern, StmtFault>
    ensures pattern { IfOk result (λ z. Leads (λ p q. IsPattern (view_ty t.now) p (stmts.Value (source.view_expr e.now)) z q)
        (view_context context.now) (view_body body.old) (view_body body.new)) }
    ensures refused { IfErr result (λ f. FailsFor f.why
        (λ k. From (λ p. FailsPattern (view_ty t.now) p (stmts.Value (source.view_expr e.now)) k)
        (view_context context.now) (view_body body.old))) }
{
    match label(alloc, context, body, e, t) {
        Ok(v) => Ok(CasePattern::One(v)),
        Err(fault) => Err(fault),
    }
}

// A pattern of two labels, the high one behind its low one.
fn up_to(
    alloc: Global,
    context: &Context,
    body: &mut Body,
    low: Constant,
    to: &Expr,
    t: &Ty,
) -> Result<CasePattern, StmtFault>
    ensures pattern { IfOk result (λ z. (w : Constant) × (z ≡ Range low w)
        × Leads (λ p q. IsLabel (view_ty t.now) p (source.view_expr to.now) w q)
        (view_context context.now) (view_body body.old) (view_body body.new)) }
    ensures refused { IfErr result (λ f. FailsFor f.why
        (λ k. From (λ p. FailsLabel (view_ty t.now) p (source.view_expr to.now) k) (view_context context.now) (view_body body.old))) }
{
    match label(alloc, context, body, to, t) {
        Ok(high) => Ok(CasePattern::Range {
            from: low,
            to: high,
        }),
        Err(fault) => Err(fault),
    }
}

// A pattern of two labels.
fn range(
    alloc: Global,
    context: &Context,
    body: &mut Body,
    from: &Expr,
    to: &Expr,
    t: &Ty,
) -> Result<CasePattern, StmtFault>
    ensures pattern { IfOk result (λ z. Leads
        (λ p q. IsPattern (view_ty t.now) p (stmts.Range (source.view_expr from.now) (source.view_expr to.now)) z q)
        (view_context context.now) (view_body body.old) (view_body body.new)) }
    ensures refused { IfErr result (λ f. FailsFor f.why
        (λ k. From (λ p. FailsPattern (view_ty t.now) p (stmts.Range (source.view_expr from.now) (source.view_expr to.now)) k)
        (view_context context.now) (view_body body.old))) }
{
    match label(alloc, context, body, from, t) {
        Ok(low) => up_to(alloc, context, body, low, to, t),
        Err(fault) => Err(fault),
    }
}

/// A pattern of an arm of a `case`.
///
/// # Errors
/// Those of its labels.
pub fn case_pattern(
    alloc: Global,
    context: &Context,
    body: &mut Body,
    pattern: &Pattern,
    t: &Ty,
) -> Result<CasePattern, StmtFault>
    ensures pattern { IfOk result (λ z. Leads (λ p q. IsPattern (view_ty t.now) p (source.view_pattern pattern.now) z q)
        (view_context context.now) (view_body body.old) (view_body body.new)) }
    ensures refused { IfErr result (λ f. FailsFor f.why
        (λ k. From (λ p. FailsPattern (view_ty t.now) p (source.view_pattern pattern.now) k)
        (view_context context.now) (view_body body.old))) }
{
    match pattern {
        Pattern::Any { .. } => Ok(CasePattern::Any),
        Pattern::One { value } => single(alloc, context, body, value, t),
        Pattern::Range { from, to } => range(alloc, context, body, from, to, t),
    }
}
