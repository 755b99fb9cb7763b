//! Expressions with their types, and values.

ghost use Rattle.std.specs.Prelude.{◌≡◌, IfOk, IfErr, map};
ghost use Rattle.limbo_tree.specs.View as source;
ghost use Rattle.limbo_typed.specs.View.{view_expr, view_exprs, view_optional};
ghost use Rattle.limbo_causes.specs.Causes.{FailsBy};
ghost use Rattle.limbo_context.specs.View.{view_context, view_body};
ghost use Rattle.limbo_typing.specs.Typing.{HasValue, Types, HaveValues, MayHave};
ghost use Rattle.limbo_typing.specs.Failing.{FailsValue, Fails, FailsSome, FailsPart};

use crate::endings::{answered, permitted};
use crate::forms::form;
use limbo_causes::TypingFault;
use limbo_context::{Body, Context};
use limbo_tree::{Expr, span_of};
use limbo_typed::TExpr;
use std::alloc::Global;

/// The value that an expression is where a body has come to. What it declares by `:=` stands in the body then; after a refusal the body
/// has what the parts before the one that fails declare.
///
/// # Errors
/// Those of `check`, and 50 where it is a call without an answer.
#[cycle(exprs)]
pub fn value(
    alloc: Global,
    context: &Context,
    body: &mut Body,
    e: &Expr,
) -> Result<Box<TExpr>, TypingFault>
    ensures typed { IfOk result (λ x.
        HasValue (view_context context.now) (view_body body.old) (source.view_expr e.now) (view_expr x.value) (view_body body.new)) }
    ensures refused { IfErr result (λ f. FailsBy f.cause
        (FailsValue (view_context context.now) (view_body body.old) (source.view_expr e.now))) }
{
    match check(alloc, context, body, e) {
        Ok(x) => answered(alloc, x, span_of(e)),
        Err(fault) => Err(fault),
    }
}

/// The typed tree that an expression is where a body has come to.
///
/// # Errors
/// Refusals 41 to 43 and 50 to 55, each only where a part fails so, with the part's place, and want of memory.
#[cycle(exprs)]
pub fn check(
    alloc: Global,
    context: &Context,
    body: &mut Body,
    e: &Expr,
) -> Result<Box<TExpr>, TypingFault>
    ensures typed { IfOk result (λ x.
        Types (view_context context.now) (view_body body.old) (source.view_expr e.now) (view_expr x.value) (view_body body.new)) }
    ensures refused { IfErr result (λ f. FailsBy f.cause
        (Fails (view_context context.now) (view_body body.old) (source.view_expr e.now))) }
{
    match form(alloc, context, body, e) {
        Ok(x) => permitted(alloc, context, x, span_of(e)),
        Err(fault) => Err(fault),
    }
}

/// The values that expressions are, one after the other.
///
/// # Errors
/// Those of the first that fails.
#[cycle(exprs)]
pub fn values(
    alloc: Global,
    context: &Context,
    body: &mut Body,
    es: &[Expr],
) -> Result<Vec<TExpr>, TypingFault>
    ensures typed { IfOk result (λ xs. HaveValues (view_context context.now) (view_body body.old)
        (source.exprs_of (map source.view_expr es.now)) (view_exprs xs.items) (view_body body.new)) }
    ensures refused { IfErr result (λ f. FailsBy f.cause
        (FailsSome (view_context context.now) (view_body body.old) (source.exprs_of (map source.view_expr es.now)))) }
{
    let mut xs = Vec::new(alloc);
    for e in es {
        match value(alloc, context, body, e) {
            Ok(x) => xs.push(Box::into_inner(x))?,
            Err(fault) => return Err(fault),
        }
    }
    Ok(xs)
}

/// The value of a part that may be absent.
///
/// # Errors
/// Those of the part.
#[cycle(exprs)]
pub fn maybe(
    alloc: Global,
    context: &Context,
    body: &mut Body,
    part: &Option<Box<Expr>>,
) -> Result<Option<Box<TExpr>>, TypingFault>
    ensures typed { IfOk result (λ x. MayHave (view_context context.now) (view_body body.old) (source.view_part part.now)
        (view_optional x) (view_body body.new)) }
    ensures refused { IfErr result (λ f. FailsBy f.cause
        (FailsPart (view_context context.now) (view_body body.old) (source.view_part part.now))) }
{
    match part {
        None => Ok(None),
        Some(e) => match value(alloc, context, body, e) {
            Ok(x) => Ok(Some(x)),
            Err(fault) => Err(fault),
        },
    }
}
