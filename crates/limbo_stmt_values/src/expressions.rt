//! Expressions where statements have them.

ghost use Rattle.std.specs.Prelude.{IfOk, IfErr};
ghost use Rattle.limbo_tree.specs.View as source;
ghost use Rattle.limbo_types.specs.View.{view_ty};
ghost use Rattle.limbo_typed.specs.View.{view_expr};
ghost use Rattle.limbo_causes.specs.Causes.{FailsBy};
ghost use Rattle.limbo_context.specs.View.{view_context, view_body};
ghost use Rattle.limbo_stating.specs.Around.{Evaluates, FailsToEvaluate, Tests, FailsToTest};
ghost use Rattle.limbo_stating.specs.Cases.{Chooses, FailsToChoose};
ghost use Rattle.limbo_stating.specs.Stating.{Spawns};
ghost use Rattle.limbo_stating.specs.FailsToState.{FailsToSpawn};
ghost use Rattle.limbo_stmt_values.specs.Leading.{From, Leads};
ghost use Rattle.limbo_stmt_values.specs.Answering.{Answers, FailsToAnswer};

use crate::endings::{answer, chosen, int, settled, unanswered};
use limbo_causes::TypingFault;
use limbo_context::{Body, Context};
use limbo_exprs::{check, value};
use limbo_tree::{Expr, span_of};
use limbo_typed::TExpr;
use limbo_types::Ty;
use std::alloc::Global;

/// An expression that is evaluated for what it does.
///
/// # Errors
/// Those of the expression, and 50 where nothing says what a `nil` in it stands for.
pub fn evaluate(
    alloc: Global,
    context: &Context,
    body: &mut Body,
    e: &Expr,
) -> Result<Box<TExpr>, TypingFault>
    ensures evaluates { IfOk result (λ x. Leads (λ p q. Evaluates p (source.view_expr e.now) (view_expr x.value) q)
        (view_context context.now) (view_body body.old) (view_body body.new)) }
    ensures refused { IfErr result (λ f. FailsBy f.cause
        (λ k. From (λ p. FailsToEvaluate p (source.view_expr e.now) k) (view_context context.now) (view_body body.old))) }
{
    match check(alloc, context, body, e) {
        Ok(x) => settled(alloc, x, span_of(e)),
        Err(fault) => Err(fault),
    }
}

/// A condition.
///
/// # Errors
/// Those of the expression, and 50 where it is no int.
pub fn test(
    alloc: Global,
    context: &Context,
    body: &mut Body,
    e: &Expr,
) -> Result<Box<TExpr>, TypingFault>
    ensures tests { IfOk result (λ x. Leads (λ p q. Tests p (source.view_expr e.now) (view_expr x.value) q)
        (view_context context.now) (view_body body.old) (view_body body.new)) }
    ensures refused { IfErr result (λ f. FailsBy f.cause
        (λ k. From (λ p. FailsToTest p (source.view_expr e.now) k) (view_context context.now) (view_body body.old))) }
{
    match value(alloc, context, body, e) {
        Ok(x) => int(alloc, x, span_of(e)),
        Err(fault) => Err(fault),
    }
}

/// What a `case` chooses from.
///
/// # Errors
/// Those of the expression, and 50 where it is no int, big or string.
pub fn choose(
    alloc: Global,
    context: &Context,
    body: &mut Body,
    e: &Expr,
) -> Result<Box<TExpr>, TypingFault>
    ensures chooses { IfOk result (λ x. Leads (λ p q. Chooses p (source.view_expr e.now) (view_expr x.value) q)
        (view_context context.now) (view_body body.old) (view_body body.new)) }
    ensures refused { IfErr result (λ f. FailsBy f.cause
        (λ k. From (λ p. FailsToChoose p (source.view_expr e.now) k) (view_context context.now) (view_body body.old))) }
{
    match value(alloc, context, body, e) {
        Ok(x) => chosen(alloc, x, span_of(e)),
        Err(fault) => Err(fault),
    }
}

/// A call that begins as a process of its own.
///
/// # Errors
/// Those of the expression, and 50 where it is no call, or one with an answer.
pub fn spawned(
    alloc: Global,
    context: &Context,
    body: &mut Body,
    e: &Expr,
) -> Result<Box<TExpr>, TypingFault>
    ensures spawns { IfOk result (λ x. Leads (λ p q. Spawns p (source.view_expr e.now) (view_expr x.value) q)
        (view_context context.now) (view_body body.old) (view_body body.new)) }
    ensures refused { IfErr result (λ f. FailsBy f.cause
        (λ k. From (λ p. FailsToSpawn p (source.view_expr e.now) k) (view_context context.now) (view_body body.old))) }
{
    match check(alloc, context, body, e) {
        Ok(x) => unanswered(alloc, x, span_of(e)),
        Err(fault) => Err(fault),
    }
}

/// An answer of the type that is asked of it.
///
/// # Errors
/// Those of the expression, and 50 where it doesn't stand where the type is asked for.
pub fn returned(
    alloc: Global,
    context: &Context,
    body: &mut Body,
    e: &Expr,
    asked: &Ty,
) -> Result<Box<TExpr>, TypingFault>
    ensures answers { IfOk result (λ y. Leads (λ p q. Answers (view_ty asked.now) p (source.view_expr e.now) (view_expr y.value) q)
        (view_context context.now) (view_body body.old) (view_body body.new)) }
    ensures refused { IfErr result (λ f. FailsBy f.cause
        (λ k. From (λ p. FailsToAnswer (view_ty asked.now) p (source.view_expr e.now) k) (view_context context.now) (view_body body.old))) }
{
    match value(alloc, context, body, e) {
        Ok(x) => answer(alloc, x, asked, span_of(e)),
        Err(fault) => Err(fault),
    }
}
