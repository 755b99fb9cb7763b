//! The forms of expressions.

ghost use Rattle.std.specs.Prelude.{ℤ, ◌≡◌, IfOk, IfErr, Some, Bool, map};
ghost use Rattle.limbo_types.specs.Types as types;
ghost use Rattle.limbo_types.specs.View.{view_ty};
ghost use Rattle.limbo_tree.specs.Exprs as tree;
ghost use Rattle.limbo_tree.specs.View as source;
ghost use Rattle.limbo_typed.specs.Typed as typed;
ghost use Rattle.limbo_typed.specs.Typed.{Of};
ghost use Rattle.limbo_typed.specs.View.{view_expr, view_node};
ghost use Rattle.limbo_causes.specs.Causes.{FailsBy};
ghost use Rattle.limbo_causes.specs.declared.fault.Cause.TheVariants.{NoMemory};
ghost use Rattle.limbo_context.specs.View.{view_context, view_body};
ghost use Rattle.limbo_typing.specs.limbo_value_forms.Forms.{Forms, two, values_in};
ghost use Rattle.limbo_operands.specs.Operands as operands;
ghost use Rattle.limbo_typing.specs.Typing.{Has};
ghost use Rattle.limbo_typing.specs.Failing.{FailsForm};
ghost use Rattle.limbo_exprs.specs.Parts.{number_value, with_one, with_two};

use crate::arrays::{channel_of, filled, sized};
use crate::assigning::assigned;
use crate::calling::{called, loaded};
use crate::endings::{placed, value_of};
use crate::naming::{member_of, named, part_of};
use crate::shapes::{OfOne, OfTwo, changes_first, changes_one, of_one, of_two};
use crate::targets::part;
use crate::valuing::{check, maybe, value, values};
use inf_text::{Span, Text};
use limbo_causes::TypingFault;
use limbo_context::{Body, Context};
use limbo_literals::{list, tuple};
use limbo_places::slice;
use limbo_refusals::clash_of;
use limbo_tree::Expr;
use limbo_typed::{TExpr, TNode};
use limbo_types::Ty;
use std::alloc::Global;

// A leaf of a type.
#[tactic(auto, using(limbo_typed::proofs::View::the_exprs))]
fn leaf(alloc: Global, ty: Ty, node: TNode) -> Result<Box<TExpr>, TypingFault>
    ensures typed { IfOk result (λ x. view_expr x.value ≡ Of (view_ty ty) (view_node node)) }
    ensures refused { IfErr result (λ f. f.cause ≡ NoMemory) }
{
    Ok(Box::new(alloc, TExpr { ty, node })?)
}

#[tactic(auto, using(limbo_typed::proofs::View::the_exprs, limbo_types::proofs::View::the_types))]
fn number(alloc: Global, value: i64, wide: bool) -> Result<Box<TExpr>, TypingFault>
    ensures typed { IfOk result (λ x. view_expr x.value ≡ number_value value wide) }
    ensures refused { IfErr result (λ f. f.cause ≡ NoMemory) }
{
    if wide {
        leaf(alloc, Ty::Big, TNode::Number(value))
    } else {
        leaf(alloc, Ty::Int, TNode::Number(value))
    }
}

#[tactic(auto, using(limbo_typed::proofs::View::the_exprs, limbo_types::proofs::View::the_types))]
fn chars(alloc: Global, text: &Text) -> Result<Box<TExpr>, TypingFault>
    ensures typed { IfOk result (λ x. view_expr x.value ≡ Of types.Chars (typed.Chars text.now)) }
    ensures refused { IfErr result (λ f. f.cause ≡ NoMemory) }
{
    leaf(alloc, Ty::Chars, TNode::Chars(text.clone()?))
}

#[tactic(auto, using(limbo_typed::proofs::View::the_exprs, limbo_types::proofs::View::the_types))]
fn nil(alloc: Global) -> Result<Box<TExpr>, TypingFault>
    ensures typed { IfOk result (λ x. view_expr x.value ≡ Of types.Nil typed.OpenNil) }
    ensures refused { IfErr result (λ f. f.cause ≡ NoMemory) }
{
    leaf(alloc, Ty::Nil, TNode::OpenNil)
}

// The typed tree of a form of one value.
#[cycle(exprs)]
fn made_of_one(
    alloc: Global,
    context: &Context,
    body: &mut Body,
    form: OfOne,
    e: &Expr,
    at: Span,
) -> Result<Box<TExpr>, TypingFault>
    ensures typed { IfOk result (λ z. Has (view_context context.now) (view_body body.old) (with_one form (source.view_expr e.now))
        (view_expr z.value) (view_body body.new)) }
    ensures refused { IfErr result (λ f. FailsBy f.cause
        (FailsForm (view_context context.now) (view_body body.old) (with_one form (source.view_expr e.now)))) }
{
    match part(alloc, context, body, e, changes_one(form)) {
        Ok(x) => placed(of_one(alloc, context, form, x), at),
        Err(fault) => Err(fault),
    }
}

// The typed tree of a form of two values.
#[cycle(exprs)]
pub(crate) fn made_of_two(
    alloc: Global,
    context: &Context,
    body: &mut Body,
    form: OfTwo,
    left: &Expr,
    right: &Expr,
    at: Span,
) -> Result<Box<TExpr>, TypingFault>
    requires values { (l r : tree.Expr) → values_in (with_two form l r) ≡ Some (two l r) }
    ensures typed { IfOk result (λ z. Has (view_context context.now) (view_body body.old)
        (with_two form (source.view_expr left.now) (source.view_expr right.now)) (view_expr z.value) (view_body body.new)) }
    ensures refused { IfErr result (λ f. FailsBy f.cause (FailsForm (view_context context.now) (view_body body.old)
        (with_two form (source.view_expr left.now) (source.view_expr right.now)))) }
{
    match part(alloc, context, body, left, changes_first(form)) {
        Err(fault) => Err(fault),
        Ok(x) => match value(alloc, context, body, right) {
            Ok(y) => placed(of_two(alloc, context, form, x, y), at),
            Err(fault) => Err(fault),
        },
    }
}

// `list of { .. }`
#[cycle(exprs)]
fn listed(
    alloc: Global,
    context: &Context,
    body: &mut Body,
    items: &[Expr],
    at: Span,
) -> Result<Box<TExpr>, TypingFault>
    ensures typed { IfOk result (λ z. Has (view_context context.now) (view_body body.old)
        (tree.Listed (source.exprs_of (map source.view_expr items.now))) (view_expr z.value) (view_body body.new)) }
    ensures refused { IfErr result (λ f. FailsBy f.cause (FailsForm (view_context context.now) (view_body body.old)
        (tree.Listed (source.exprs_of (map source.view_expr items.now))))) }
{
    match values(alloc, context, body, items) {
        Ok(xs) => placed(list(alloc, xs), at),
        Err(fault) => Err(fault),
    }
}

// What stands in parentheses: one expression, or a tuple of more.
#[cycle(exprs)]
fn grouped(
    alloc: Global,
    context: &Context,
    body: &mut Body,
    items: &[Expr],
    at: Span,
) -> Result<Box<TExpr>, TypingFault>
    ensures typed { IfOk result (λ z. Has (view_context context.now) (view_body body.old)
        (tree.Group (source.exprs_of (map source.view_expr items.now))) (view_expr z.value) (view_body body.new)) }
    ensures refused { IfErr result (λ f. FailsBy f.cause (FailsForm (view_context context.now) (view_body body.old)
        (tree.Group (source.exprs_of (map source.view_expr items.now))))) }
{
    match items {
        [] => Err(TypingFault::refused(clash_of(alloc, &Ty::Nothing, &Ty::Nothing), at)),
        [item] => check(alloc, context, body, item),
        _ => match values(alloc, context, body, items) {
            Ok(xs) => Ok(tuple(alloc, xs)?),
            Err(fault) => Err(fault),
        },
    }
}

// `base[from:to]`
#[cycle(exprs)]
fn sliced(
    alloc: Global,
    context: &Context,
    body: &mut Body,
    base: &Expr,
    from: &Option<Box<Expr>>,
    to: &Option<Box<Expr>>,
    at: Span,
) -> Result<Box<TExpr>, TypingFault>
    ensures typed { IfOk result (λ z. Has (view_context context.now) (view_body body.old)
        (tree.Slice (source.view_expr base.now) (source.view_part from.now) (source.view_part to.now))
        (view_expr z.value) (view_body body.new)) }
    ensures refused { IfErr result (λ f. FailsBy f.cause (FailsForm (view_context context.now) (view_body body.old)
        (tree.Slice (source.view_expr base.now) (source.view_part from.now) (source.view_part to.now)))) }
{
    match value(alloc, context, body, base) {
        Err(fault) => Err(fault),
        Ok(x) => match maybe(alloc, context, body, from) {
            Err(fault) => Err(fault),
            Ok(from) => match maybe(alloc, context, body, to) {
                Err(fault) => Err(fault),
                Ok(to) => placed(slice(alloc, x, from, to), at),
            },
        },
    }
}

/// The typed tree that an expression is, whatever its type and its stores.
///
/// # Errors
/// Those of its parts, and the refusal of its form.
#[cycle(exprs)]
pub(crate) fn form(
    alloc: Global,
    context: &Context,
    body: &mut Body,
    e: &Expr,
) -> Result<Box<TExpr>, TypingFault>
    ensures typed { IfOk result (λ z.
        Has (view_context context.now) (view_body body.old) (source.view_expr e.now) (view_expr z.value) (view_body body.new)) }
    ensures refused { IfErr result (λ f. FailsBy f.cause
        (FailsForm (view_context context.now) (view_body body.old) (source.view_expr e.now))) }
{
    match e {
        Expr::Number { value, wide, .. } => number(alloc, *value, *wide),
        Expr::Chars { text, .. } => chars(alloc, text),
        Expr::Nil { .. } => nil(alloc),
        Expr::Name { name, span } => match named(alloc, context, body, name, *span) {
            Ok(thing) => value_of(alloc, thing, *span),
            Err(fault) => Err(fault),
        },
        Expr::Arrow { base, name, span } => {
            match member_of(alloc, context, body, base, &name.text, *span) {
                Ok(thing) => value_of(alloc, thing, *span),
                Err(fault) => Err(fault),
            }
        }
        Expr::Dot { base, name, span } => {
            match part_of(alloc, context, body, base, &name.text, *span) {
                Ok(thing) => value_of(alloc, thing, *span),
                Err(fault) => Err(fault),
            }
        }
        Expr::Group { items, span } => grouped(alloc, context, body, items, *span),
        Expr::Listed { items, span } => listed(alloc, context, body, items, *span),
        Expr::Unary { op, operand, span } => {
            made_of_one(alloc, context, body, OfOne::Before(*op), operand, *span)
        }
        Expr::Postfix { op, base, span } => {
            made_of_one(alloc, context, body, OfOne::Behind(*op), base, *span)
        }
        Expr::Bytes { operand, span } => {
            made_of_one(alloc, context, body, OfOne::Bytes, operand, *span)
        }
        Expr::Binary {
            op,
            left,
            right,
            span,
        } => made_of_two(
            alloc,
            context,
            body,
            OfTwo::Between(*op),
            left,
            right,
            *span,
        ),
        Expr::Index { base, index, span } => {
            made_of_two(alloc, context, body, OfTwo::Index, base, index, *span)
        }
        Expr::Slice {
            base,
            from,
            to,
            span,
        } => sliced(alloc, context, body, base, from, to, *span),
        Expr::Sized { len, element, span } => sized(alloc, context, body, len, element, *span),
        Expr::Channel {
            size,
            element,
            span,
        } => channel_of(alloc, context, body, size, element, *span),
        Expr::Filled {
            len,
            items,
            comma,
            span,
        } => filled(alloc, context, body, len, items, *comma, *span),
        Expr::Load { module, path, span } => {
            loaded(alloc, context, body, &module.text, path, *span)
        }
        Expr::Call {
            function,
            args,
            span,
        } => called(alloc, context, body, function, args, *span),
        Expr::Assign {
            op,
            left,
            right,
            span,
        } => assigned(alloc, context, body, *op, left, right, *span),
    }
}
