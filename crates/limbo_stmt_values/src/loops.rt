//! What stands in the heads of loops.

ghost use Rattle.std.specs.Prelude.{◌≡◌, Some, IfOk, IfErr};
ghost use Rattle.limbo_tree.specs.View as source;
ghost use Rattle.limbo_typed.specs.View.{view_expr, view_boxed};
ghost use Rattle.limbo_folding.specs.Folding.{value_of};
ghost use Rattle.limbo_causes.specs.Causes.{FailsBy};
ghost use Rattle.limbo_context.specs.View.{view_context, view_body};
ghost use Rattle.limbo_stating.specs.Around as around;
ghost use Rattle.limbo_stating.specs.Around.{MayTest, MayFailToTest, FailsToTest, MayEvaluate, MayFailToEvaluate};
ghost use Rattle.limbo_stmt_values.specs.Leading.{From, Leads};

use crate::expressions::{evaluate, test};
use limbo_causes::TypingFault;
use limbo_context::{Body, Context};
use limbo_folding::fold;
use limbo_tree::Expr;
use limbo_typed::{Constant, TExpr};
use std::alloc::{AllocError, Global};

// Whether an expression is a constant that isn't 0.
fn always(alloc: Global, x: &TExpr) -> Result<bool, AllocError>
    ensures { IfOk result (λ yes. yes ≡ around.always (value_of (view_expr x.now))) }
{
    match fold(alloc, x)? {
        Some(Constant::Number(n)) => Ok(n != 0),
        Some(Constant::Chars(_)) => Ok(false),
        None => Ok(false),
    }
}

// The condition of a loop: none where it always holds.
#[tactic(auto, using(limbo_typed::proofs::View::the_exprs))]
fn loop_condition(alloc: Global, x: Box<TExpr>) -> Result<Option<Box<TExpr>>, AllocError>
    ensures { IfOk result (λ o. view_boxed o ≡ around.condition (view_expr x.value)) }
{
    if always(alloc, &x)? {
        Ok(None)
    } else {
        Ok(Some(x))
    }
}

// The condition of a loop that has one.
fn loop_test(
    alloc: Global,
    context: &Context,
    body: &mut Body,
    e: &Expr,
) -> Result<Option<Box<TExpr>>, TypingFault>
    ensures tests { IfOk result (λ x. Leads (λ p q. MayTest p (Some (source.view_expr e.now)) (view_boxed x) q)
        (view_context context.now) (view_body body.old) (view_body body.new)) }
    ensures refused { IfErr result (λ f. FailsBy f.cause
        (λ k. From (λ p. FailsToTest p (source.view_expr e.now) k) (view_context context.now) (view_body body.old))) }
{
    match test(alloc, context, body, e) {
        Ok(x) => Ok(loop_condition(alloc, x)?),
        Err(fault) => Err(fault),
    }
}

/// The condition of a loop, which may be absent. One that is a constant and isn't 0 is left out.
///
/// # Errors
/// Those of a condition.
#[tactic(auto, using(limbo_typed::proofs::View::the_exprs))]
pub fn may_test(
    alloc: Global,
    context: &Context,
    body: &mut Body,
    e: &Option<Box<Expr>>,
) -> Result<Option<Box<TExpr>>, TypingFault>
    ensures tests { IfOk result (λ x. Leads (λ p q. MayTest p (source.view_boxed e.now) (view_boxed x) q)
        (view_context context.now) (view_body body.old) (view_body body.new)) }
    ensures refused { IfErr result (λ f. FailsBy f.cause
        (λ k. From (λ p. MayFailToTest p (source.view_boxed e.now) k) (view_context context.now) (view_body body.old))) }
{
    match e {
        None => Ok(None),
        Some(e) => loop_test(alloc, context, body, e),
    }
}

/// What a `for` begins with, or steps by, which may be absent.
///
/// # Errors
/// Those of an expression that is evaluated for what it does.
#[tactic(auto, using(limbo_typed::proofs::View::the_exprs))]
pub fn may_evaluate(
    alloc: Global,
    context: &Context,
    body: &mut Body,
    e: &Option<Box<Expr>>,
) -> Result<Option<Box<TExpr>>, TypingFault>
    ensures evaluates { IfOk result (λ x. Leads (λ p q. MayEvaluate p (source.view_boxed e.now) (view_boxed x) q)
        (view_context context.now) (view_body body.old) (view_body body.new)) }
    ensures refused { IfErr result (λ f. FailsBy f.cause
        (λ k. From (λ p. MayFailToEvaluate p (source.view_boxed e.now) k) (view_context context.now) (view_body body.old))) }
{
    match e {
        None => Ok(None),
        Some(e) => match evaluate(alloc, context, body, e) {
            Ok(x) => Ok(Some(x)),
            Err(fault) => Err(fault),
        },
    }
}
