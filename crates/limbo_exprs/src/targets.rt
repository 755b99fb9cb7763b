//! What stands where a place is asked for: before `=` and `op=`, and beside `++` and `--`.

ghost use Rattle.std.specs.Prelude.{◌≡◌, ◌<◌, true, false, IfOk, IfErr, IfSome, IfNone};
ghost use Rattle.limbo_tree.specs.declared.expr.Expr.{size-Expr};
ghost use Rattle.limbo_tree.specs.Exprs as tree;
ghost use Rattle.limbo_tree.specs.View as source;
ghost use Rattle.limbo_typed.specs.View.{view_expr};
ghost use Rattle.limbo_refusals.specs.Refusals.{NotPlace, NoneIs};
ghost use Rattle.limbo_causes.specs.Causes as causes;
ghost use Rattle.limbo_causes.specs.Causes.{FailsBy};
ghost use Rattle.limbo_context.specs.Context as known;
ghost use Rattle.limbo_context.specs.View.{view_context, view_body};
ghost use Rattle.limbo_things.specs.Things.{AValue};
ghost use Rattle.limbo_things.specs.ThingView.{view_thing};
ghost use Rattle.limbo_typing.specs.limbo_value_forms.Forms.{one};
ghost use Rattle.limbo_typing.specs.Typing.{Has, HasValue, is_path};
ghost use Rattle.limbo_typing.specs.Failing.{FailsPlace, FailsValue, is_enclosed};
ghost use Rattle.limbo_exprs.specs.Parts.{FailsAs};

use crate::endings::{answered, permitted};
use crate::naming::denote;
use crate::valuing::value;
use inf_text::Span;
use limbo_causes::TypingFault;
use limbo_context::{Body, Context};
use limbo_refusals::ExprFault;
use limbo_things::Thing;
use limbo_tree::{Expr, span_of};
use limbo_typed::TExpr;
use std::alloc::Global;

// Whether it is a name, or stands behind one.
#[tactic(auto, using(limbo_tree::proofs::Exprs::the_views, crate::proofs::Tested::no_path))]
fn is_name(e: &Expr) -> bool
    ensures { result ≡ is_path (source.view_expr e.now) }
{
    matches!(e, Expr::Name { .. } | Expr::Arrow { .. } | Expr::Dot { .. })
}

// The expression that stands alone in parentheses.
#[tactic(auto, using(limbo_tree::proofs::Exprs::the_views, crate::proofs::Tested::not_enclosed))]
fn enclosed(e: &Expr) -> Option<&Expr>
    ensures found { IfSome result (λ i. source.view_expr e.now ≡ tree.Group (one (source.view_expr i.now))) }
    ensures smaller { IfSome result (λ i. size-Expr i.now < size-Expr e.now) }
    ensures none { IfNone result (is_enclosed (source.view_expr e.now) ≡ false) }
{
    match e {
        Expr::Group { items, .. } => match items.as_slice() {
            [] => None,
            [item] => Some(item),
            _ => None,
        },
        _ => None,
    }
}

// The value that a thing is, where a place is asked for.
fn its_value(thing: Box<Thing>, at: Span) -> Result<Box<TExpr>, TypingFault>
    ensures typed { IfOk result (λ x. view_thing thing.value ≡ AValue (view_expr x.value)) }
    ensures refused { IfErr result (λ f. FailsBy f.cause
        (λ k. (k ≡ causes.Refused NotPlace) × NoneIs (λ x. view_thing thing.value ≡ AValue x))) }
{
    match Box::into_inner(thing) {
        Thing::Value(x) => Ok(x),
        _ => Err(TypingFault::refused(ExprFault::NotPlace, at)),
    }
}

// A typed tree, if it may stand anywhere and has a value.
fn standing(
    alloc: Global,
    context: &Context,
    x: Box<TExpr>,
    at: Span,
) -> Result<Box<TExpr>, TypingFault>
    ensures typed { (b d : known.Body) (e : tree.Expr) → Has (view_context context.now) b e (view_expr x.value) d
        → IfOk result (λ y. HasValue (view_context context.now) b e (view_expr y.value) d) }
    ensures refused { (b d : known.Body) (e : tree.Expr) → Has (view_context context.now) b e (view_expr x.value) d
        → IfErr result (λ f. FailsBy f.cause (FailsValue (view_context context.now) b e)) }
{
    match permitted(alloc, context, x, at) {
        Ok(x) => answered(alloc, x, at),
        Err(fault) => Err(fault),
    }
}

// The value that is named where a place is asked for.
#[cycle(exprs)]
fn named_target(
    alloc: Global,
    context: &Context,
    body: &mut Body,
    e: &Expr,
) -> Result<Box<TExpr>, TypingFault>
    requires named { is_path (source.view_expr e.now) ≡ true }
    ensures typed { IfOk result (λ x.
        HasValue (view_context context.now) (view_body body.old) (source.view_expr e.now) (view_expr x.value) (view_body body.new)) }
    ensures refused { IfErr result (λ f. FailsBy f.cause
        (FailsPlace (view_context context.now) (view_body body.old) (source.view_expr e.now))) }
{
    match denote(alloc, context, body, e) {
        Err(fault) => Err(fault),
        Ok(thing) => match its_value(thing, span_of(e)) {
            Ok(x) => standing(alloc, context, x, span_of(e)),
            Err(fault) => Err(fault),
        },
    }
}

/// The value that stands where a place is asked for.
///
/// # Errors
/// Those of `value`, but 51 where it is the name of something that has no value, such as a function or a type.
#[cycle(exprs)]
pub(crate) fn target(
    alloc: Global,
    context: &Context,
    body: &mut Body,
    e: &Expr,
) -> Result<Box<TExpr>, TypingFault>
    ensures typed { IfOk result (λ x.
        HasValue (view_context context.now) (view_body body.old) (source.view_expr e.now) (view_expr x.value) (view_body body.new)) }
    ensures refused { IfErr result (λ f. FailsBy f.cause
        (FailsPlace (view_context context.now) (view_body body.old) (source.view_expr e.now))) }
{
    match enclosed(e) {
        Some(item) => target(alloc, context, body, item),
        None => {
            if is_name(e) {
                named_target(alloc, context, body, e)
            } else {
                value(alloc, context, body, e)
            }
        }
    }
}

/// A part's value, where a place is asked for and where not.
///
/// # Errors
/// Those of `target` and of `value`.
#[cycle(exprs)]
pub(crate) fn part(
    alloc: Global,
    context: &Context,
    body: &mut Body,
    e: &Expr,
    changes: bool,
) -> Result<Box<TExpr>, TypingFault>
    ensures typed { IfOk result (λ x.
        HasValue (view_context context.now) (view_body body.old) (source.view_expr e.now) (view_expr x.value) (view_body body.new)) }
    ensures refused { IfErr result (λ f. FailsBy f.cause
        (FailsAs changes (view_context context.now) (view_body body.old) (source.view_expr e.now))) }
{
    if changes {
        target(alloc, context, body, e)
    } else {
        value(alloc, context, body, e)
    }
}
