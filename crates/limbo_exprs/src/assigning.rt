//! Assignments and declarations.

ghost use Rattle.std.specs.Prelude.{◌≡◌, ◌≢◌, ◌<◌, IfOk, IfErr, IfSome, IfNone, None, map};
ghost use Rattle.limbo_types.specs.Types as types;
ghost use Rattle.limbo_types.specs.View.{view_ty};
ghost use Rattle.limbo_tree.specs.declared.operators.AssignOp.TheVariants as op;
ghost use Rattle.limbo_tree.specs.declared.expr.Expr.{size-Expr};
ghost use Rattle.limbo_tree.specs.Exprs as tree;
ghost use Rattle.limbo_tree.specs.View as source;
ghost use Rattle.limbo_typed.specs.Typed.{Of, Read, Place, Assign, ToPlace};
ghost use Rattle.limbo_typed.specs.View.{view_expr, view_pattern, patterns_of};
ghost use Rattle.limbo_refusals.specs.Refusals.{NotPlace};
ghost use Rattle.limbo_causes.specs.Causes as causes;
ghost use Rattle.limbo_causes.specs.Causes.{FailsBy};
ghost use Rattle.limbo_causes.specs.declared.fault.Cause.TheVariants.{NoMemory};
ghost use Rattle.limbo_context.specs.View.{view_context, view_body};
ghost use Rattle.limbo_operands.specs.Operands.{IsPlace};
ghost use Rattle.limbo_typing.specs.limbo_value_forms.Forms.{copied};
ghost use Rattle.limbo_typing.specs.Typing.{Has, IsPattern, ArePatterns};
ghost use Rattle.limbo_typing.specs.Failing.{FailsForm, FailsPattern, FailsPatterns};

use crate::endings::{placed, settled};
use crate::forms::made_of_two;
use crate::shapes::OfTwo;
use crate::targets::target;
use crate::valuing::value;
use inf_text::Span;
use limbo_assigning::{assign, copy_into};
use limbo_causes::TypingFault;
use limbo_context::{Body, Context};
use limbo_defining::define;
use limbo_operands::place_of;
use limbo_refusals::{ExprFault, clash_of};
use limbo_tree::{AssignOp, Expr, span_of};
use limbo_typed::{Pattern, TExpr, TNode};
use limbo_types::{Ty, copy};
use std::alloc::Global;

// The place that a typed left side is, as a pattern.
#[tactic(auto, using(limbo_typed::proofs::View::the_exprs))]
fn place_pattern(alloc: Global, x: Box<TExpr>, at: Span) -> Result<Box<Pattern>, TypingFault>
    ensures typed { IfOk result (λ p. (t : types.Ty) × (q : Place)
        × (view_expr x.value ≡ Of t (Read q)) × (view_pattern p.value ≡ ToPlace q)) }
    ensures refused { IfErr result (λ f. FailsBy f.cause (λ k. (k ≡ causes.Refused NotPlace) × (IsPlace (view_expr x.value) → ⊥))) }
{
    match place_of(x) {
        Some(place) => Ok(Box::new(alloc, Pattern::Place(place))?),
        None => Err(TypingFault::refused(ExprFault::NotPlace, at)),
    }
}

/// A left side as a pattern: places, `nil`, and tuples of such.
///
/// # Errors
/// Those of its parts, and 51 where one is no place.
#[cycle(exprs)]
pub fn pattern(
    alloc: Global,
    context: &Context,
    body: &mut Body,
    e: &Expr,
) -> Result<Box<Pattern>, TypingFault>
    ensures typed { IfOk result (λ p. IsPattern (view_context context.now) (view_body body.old) (source.view_expr e.now)
        (view_pattern p.value) (view_body body.new)) }
    ensures refused { IfErr result (λ f. FailsBy f.cause
        (FailsPattern (view_context context.now) (view_body body.old) (source.view_expr e.now))) }
{
    match e {
        Expr::Nil { .. } => Ok(Box::new(alloc, Pattern::Nothing)?),
        Expr::Group { items, span } => grouped_pattern(alloc, context, body, items, *span),
        _ => match target(alloc, context, body, e) {
            Ok(x) => place_pattern(alloc, x, span_of(e)),
            Err(fault) => Err(fault),
        },
    }
}

// A left side in parentheses.
#[cycle(exprs)]
fn grouped_pattern(
    alloc: Global,
    context: &Context,
    body: &mut Body,
    items: &[Expr],
    at: Span,
) -> Result<Box<Pattern>, TypingFault>
    ensures typed { IfOk result (λ p. IsPattern (view_context context.now) (view_body body.old)
        (tree.Group (source.exprs_of (map source.view_expr items.now))) (view_pattern p.value) (view_body body.new)) }
    ensures refused { IfErr result (λ f. FailsBy f.cause (FailsPattern (view_context context.now) (view_body body.old)
        (tree.Group (source.exprs_of (map source.view_expr items.now))))) }
{
    match items {
        [] => Err(TypingFault::refused(clash_of(alloc, &Ty::Nothing, &Ty::Nothing), at)),
        [item] => pattern(alloc, context, body, item),
        _ => match patterns(alloc, context, body, items) {
            Ok(ps) => Ok(Box::new(alloc, Pattern::Tuple(ps))?),
            Err(fault) => Err(fault),
        },
    }
}

// Left sides in a row.
#[cycle(exprs)]
fn patterns(
    alloc: Global,
    context: &Context,
    body: &mut Body,
    es: &[Expr],
) -> Result<Vec<Pattern>, TypingFault>
    ensures typed { IfOk result (λ ps. ArePatterns (view_context context.now) (view_body body.old)
        (source.exprs_of (map source.view_expr es.now)) (patterns_of (map view_pattern ps.items)) (view_body body.new)) }
    ensures refused { IfErr result (λ f. FailsBy f.cause
        (FailsPatterns (view_context context.now) (view_body body.old) (source.exprs_of (map source.view_expr es.now)))) }
{
    let mut ps = Vec::new(alloc);
    for e in es {
        match pattern(alloc, context, body, e) {
            Ok(p) => ps.push(Box::into_inner(p))?,
            Err(fault) => return Err(fault),
        }
    }
    Ok(ps)
}

// The array and the first index of a slice to the end.
#[tactic(auto, using(limbo_tree::proofs::Exprs::the_views))]
fn bounds_from<'a>(
    base: &'a Expr,
    from: &'a Option<Box<Expr>>,
    to: &Option<Box<Expr>>,
) -> Option<(&'a Expr, &'a Expr)>
    ensures found { IfSome result (λ p.
        tree.Slice (source.view_expr base.now) (source.view_part from.now) (source.view_part to.now)
        ≡ tree.Slice (source.view_expr p.0.now) (tree.Present (source.view_expr p.1.now)) tree.Absent) }
    ensures array { IfSome result (λ p. p.0.now ≡ base.now) }
    ensures from { IfSome result (λ p. IfSome from.now (λ i. p.1.now ≡ i.value)) }
    ensures none { IfNone result ((r : tree.Expr) →
        copied (tree.Slice (source.view_expr base.now) (source.view_part from.now) (source.view_part to.now)) r ≡ None) }
{
    match to {
        Some(_) => None,
        None => match from {
            Some(from) => Some((base, from)),
            None => None,
        },
    }
}

// The array and the first index of a left side that is an array from an index on.
#[tactic(auto, using(limbo_tree::proofs::Exprs::the_views, crate::proofs::Tested::no_copy))]
fn array_from(left: &Expr) -> Option<(&Expr, &Expr)>
    ensures found { IfSome result (λ p.
        source.view_expr left.now ≡ tree.Slice (source.view_expr p.0.now) (tree.Present (source.view_expr p.1.now)) tree.Absent) }
    // Both are parts of it.
    ensures array { IfSome result (λ p. size-Expr p.0.now < size-Expr left.now) }
    ensures from { IfSome result (λ p. size-Expr p.1.now < size-Expr left.now) }
    ensures none { IfNone result ((r : tree.Expr) → copied (source.view_expr left.now) r ≡ None) }
{
    match left {
        Expr::Slice { base, from, to, .. } => bounds_from(base, from, to),
        _ => None,
    }
}

// `array[from:] = right`
#[cycle(exprs)]
fn copied_into(
    alloc: Global,
    context: &Context,
    body: &mut Body,
    array: &Expr,
    from: &Expr,
    right: &Expr,
    at: Span,
) -> Result<Box<TExpr>, TypingFault>
    ensures typed { IfOk result (λ z. Has (view_context context.now) (view_body body.old)
        (tree.Assign op.Assign (tree.Slice (source.view_expr array.now) (tree.Present (source.view_expr from.now)) tree.Absent)
        (source.view_expr right.now)) (view_expr z.value) (view_body body.new)) }
    ensures refused { IfErr result (λ f. FailsBy f.cause (FailsForm (view_context context.now) (view_body body.old)
        (tree.Assign op.Assign (tree.Slice (source.view_expr array.now) (tree.Present (source.view_expr from.now)) tree.Absent)
        (source.view_expr right.now)))) }
{
    match value(alloc, context, body, array) {
        Err(fault) => Err(fault),
        Ok(x) => match value(alloc, context, body, from) {
            Err(fault) => Err(fault),
            Ok(y) => match value(alloc, context, body, right) {
                Ok(v) => placed(copy_into(alloc, x, y, v), at),
                Err(fault) => Err(fault),
            },
        },
    }
}

// `left = right`, where the left side is a pattern.
#[cycle(exprs)]
fn stored(
    alloc: Global,
    context: &Context,
    body: &mut Body,
    left: &Expr,
    right: &Expr,
    at: Span,
) -> Result<Box<TExpr>, TypingFault>
    requires stored { copied (source.view_expr left.now) (source.view_expr right.now) ≡ None }
    ensures typed { IfOk result (λ z. Has (view_context context.now) (view_body body.old)
        (tree.Assign op.Assign (source.view_expr left.now) (source.view_expr right.now)) (view_expr z.value) (view_body body.new)) }
    ensures refused { IfErr result (λ f. FailsBy f.cause (FailsForm (view_context context.now) (view_body body.old)
        (tree.Assign op.Assign (source.view_expr left.now) (source.view_expr right.now)))) }
{
    match pattern(alloc, context, body, left) {
        Err(fault) => Err(fault),
        Ok(p) => {
            if matches!(*p, Pattern::Nothing) {
                return Err(TypingFault::refused(ExprFault::NotPlace, at));
            }
            match value(alloc, context, body, right) {
                Ok(y) => placed(assign(alloc, p, y), at),
                Err(fault) => Err(fault),
            }
        }
    }
}

// A value that goes where a pattern of its type says.
#[tactic(auto, using(limbo_typed::proofs::View::the_exprs))]
fn assignment(
    alloc: Global,
    pattern: Box<Pattern>,
    value: Box<TExpr>,
) -> Result<Box<TExpr>, TypingFault>
    ensures typed { IfOk result (λ z. view_expr z.value
        ≡ Of (view_ty value.value.ty) (Assign (view_pattern pattern.value) (view_expr value.value))) }
    ensures refused { IfErr result (λ f. f.cause ≡ NoMemory) }
{
    let ty = copy(alloc, &value.ty)?;
    let node = TNode::Assign { pattern, value };
    Ok(Box::new(alloc, TExpr { ty, node })?)
}

// `left := right`
#[cycle(exprs)]
fn defined(
    alloc: Global,
    context: &Context,
    body: &mut Body,
    left: &Expr,
    right: &Expr,
    at: Span,
) -> Result<Box<TExpr>, TypingFault>
    ensures typed { IfOk result (λ z. Has (view_context context.now) (view_body body.old)
        (tree.Assign op.Define (source.view_expr left.now) (source.view_expr right.now)) (view_expr z.value) (view_body body.new)) }
    ensures refused { IfErr result (λ f. FailsBy f.cause (FailsForm (view_context context.now) (view_body body.old)
        (tree.Assign op.Define (source.view_expr left.now) (source.view_expr right.now)))) }
{
    match value(alloc, context, body, right) {
        Err(fault) => Err(fault),
        Ok(y) => match settled(alloc, &y, at) {
            Err(fault) => Err(fault),
            Ok(()) => match define(alloc, body, left, &y.ty) {
                Ok(p) => assignment(alloc, p, y),
                Err(fault) => Err(fault),
            },
        },
    }
}

/// `left op right`: an assignment, a declaration, an assignment with an operator, or a send.
#[cycle(exprs)]
pub(crate) fn assigned(
    alloc: Global,
    context: &Context,
    body: &mut Body,
    op: AssignOp,
    left: &Expr,
    right: &Expr,
    at: Span,
) -> Result<Box<TExpr>, TypingFault>
    ensures typed { IfOk result (λ z. Has (view_context context.now) (view_body body.old)
        (tree.Assign op (source.view_expr left.now) (source.view_expr right.now)) (view_expr z.value) (view_body body.new)) }
    ensures refused { IfErr result (λ f. FailsBy f.cause (FailsForm (view_context context.now) (view_body body.old)
        (tree.Assign op (source.view_expr left.now) (source.view_expr right.now)))) }
{
    match op {
        AssignOp::Assign => match array_from(left) {
            Some((array, from)) => copied_into(alloc, context, body, array, from, right, at),
            None => stored(alloc, context, body, left, right, at),
        },
        AssignOp::Define => defined(alloc, context, body, left, right, at),
        _ => made_of_two(alloc, context, body, OfTwo::Give(op), left, right, at),
    }
}
