//! Arrays and channels.

ghost use Rattle.std.specs.Prelude.{ℤ, ◌≡◌, ◌+ℤ◌, ◌∷◌, [], ◌++◌, pos, Some, IfOk, IfErr, IfSome, IfNone, OnOk, map};
ghost use Rattle.limbo_types.specs.Types.{Int};
ghost use Rattle.limbo_types.specs.View.{view_ty};
ghost use Rattle.limbo_tree.specs.Exprs as tree;
ghost use Rattle.limbo_tree.specs.View as source;
ghost use Rattle.limbo_typed.specs.declared.stmt.Constant.TheVariants as constant;
ghost use Rattle.limbo_typed.specs.Typed.{Absent};
ghost use Rattle.limbo_typed.specs.Sound.{type_of};
ghost use Rattle.limbo_typed.specs.View.{view_expr, view_optional, view_item, items_of};
ghost use Rattle.limbo_refusals.specs.Refusals.{NoneIs};
ghost use Rattle.limbo_causes.specs.Causes.{FailsBy};
ghost use Rattle.limbo_context.specs.View.{view_context, view_body};
ghost use Rattle.limbo_folding.specs.Folding.{value_of};
ghost use Rattle.limbo_typing.specs.Typing.{Has, Fill};
ghost use Rattle.limbo_typing.specs.Failing.{FailsForm, FailsFill};
ghost use Rattle.limbo_causes.specs.declared.fault.Cause.TheVariants.{NoMemory};
ghost use Rattle.limbo_exprs.specs.Parts.{FailsIndex, IsIndex, FailsAsIndex, FillsOne, FailsOne, view_filling};

use crate::endings::placed;
use crate::valuing::{maybe, value};
use inf_text::Span;
use limbo_causes::{Cause, TypingFault};
use limbo_context::{Body, Context};
use limbo_folding::fold;
use limbo_forms::is_int;
use limbo_literals::{channel, filled_array, new_array};
use limbo_refusals::clash_of;
use limbo_tree::{Expr, Init, TypeTree, span_of};
use limbo_typed::{Constant, Item, TExpr};
use limbo_types::Ty;
use limbo_written::type_of_values;
use std::alloc::Global;

// `array[len] of` a type
#[cycle(exprs)]
pub(crate) fn sized(
    alloc: Global,
    context: &Context,
    body: &mut Body,
    len: &Expr,
    element: &TypeTree,
    at: Span,
) -> Result<Box<TExpr>, TypingFault>
    ensures typed { IfOk result (λ z. Has (view_context context.now) (view_body body.old)
        (tree.Sized (source.view_expr len.now) (source.view_type element.now)) (view_expr z.value) (view_body body.new)) }
    ensures refused { IfErr result (λ f. FailsBy f.cause (FailsForm (view_context context.now) (view_body body.old)
        (tree.Sized (source.view_expr len.now) (source.view_type element.now)))) }
{
    match value(alloc, context, body, len) {
        Err(fault) => Err(fault),
        Ok(length) => match type_of_values(alloc, context, body, element) {
            Ok(item) => placed(new_array(alloc, length, item), at),
            Err(fault) => Err(fault),
        },
    }
}

// `chan of` a type, without a size.
fn channel_unsized(
    alloc: Global,
    context: &Context,
    body: &Body,
    element: &TypeTree,
) -> Result<Box<TExpr>, TypingFault>
    ensures typed { IfOk result (λ z. Has (view_context context.now) (view_body body.now)
        (tree.Channel tree.Absent (source.view_type element.now)) (view_expr z.value) (view_body body.now)) }
    ensures refused { IfErr result (λ f. FailsBy f.cause (FailsForm (view_context context.now) (view_body body.now)
        (tree.Channel tree.Absent (source.view_type element.now)))) }
{
    match type_of_values(alloc, context, body, element) {
        Ok(item) => Ok(channel(alloc, item)?),
        Err(fault) => Err(fault),
    }
}

/// `chan of` a type
pub(crate) fn channel_of(
    alloc: Global,
    context: &Context,
    body: &Body,
    size: &Option<Box<Expr>>,
    element: &TypeTree,
    at: Span,
) -> Result<Box<TExpr>, TypingFault>
    ensures typed { IfOk result (λ z. Has (view_context context.now) (view_body body.now)
        (tree.Channel (source.view_part size.now) (source.view_type element.now)) (view_expr z.value) (view_body body.now)) }
    ensures refused { IfErr result (λ f. FailsBy f.cause (FailsForm (view_context context.now) (view_body body.now)
        (tree.Channel (source.view_part size.now) (source.view_type element.now)))) }
{
    match size {
        None => channel_unsized(alloc, context, body, element),
        Some(_) => Err(TypingFault::refused(clash_of(alloc, &Ty::Nothing, &Ty::Nothing), at)),
    }
}

// The number that a constant is.
fn number_in(folded: Option<Constant>) -> Option<i64>
    ensures found { IfSome result (λ k. folded ≡ Some (constant.Number k)) }
    ensures none { IfNone result (NoneIs (λ k. folded ≡ Some (constant.Number k))) }
{
    match folded {
        None => None,
        Some(Constant::Number(number)) => Some(number),
        Some(Constant::Chars(_)) => None,
    }
}

// The number that a typed index is.
#[tactic(auto, using(limbo_types::proofs::View::the_types))]
fn index_of(alloc: Global, index: &TExpr, at: Span) -> Result<i64, TypingFault>
    ensures int { IfOk result (λ _. type_of (view_expr index.now) ≡ Int) }
    ensures constant { IfOk result (λ k. value_of (view_expr index.now) ≡ Some (constant.Number k)) }
    ensures refused { IfErr result (λ f. FailsBy f.cause (FailsIndex (view_expr index.now))) }
{
    if !is_int(&index.ty) {
        return Err(TypingFault::refused(clash_of(alloc, &index.ty, &Ty::Int), at));
    }
    match number_in(fold(alloc, index)?) {
        Some(number) => Ok(number),
        None => Err(TypingFault {
            cause: Cause::NotConstant,
            at,
        }),
    }
}

/// The items of an array so far: those with their indices, what stands behind `* =>`, and the index of the next item without one.
#[derive(Drop)]
pub(crate) struct Filling {
    items: Vec<Item>,
    rest: Option<Box<TExpr>>,
    next: i64,
}

impl Filling {
    // One more item, at an index.
    fn put(&mut self, index: i64, value: Box<TExpr>) -> Result<(), TypingFault>
        ensures items { OnOk result (map view_item self.new.items.items
            ≡ map view_item self.old.items.items ++ (record { index = index; value = view_expr value.value }) ∷ []) }
        ensures rest { OnOk result (self.new.rest ≡ self.old.rest) }
        ensures next { OnOk result (self.new.next ≡ index +ℤ pos 1) }
        ensures refused { IfErr result (λ f. f.cause ≡ NoMemory) }
    {
        let Some(next) = index.checked_add(1) else {
            return Err(TypingFault::no_memory());
        };
        self.items.reserve(1)?;
        self.items.push_reserved(Item {
            index,
            value: Box::into_inner(value),
        });
        self.next = next;
        Ok(())
    }
}

// The number of an item's index.
#[cycle(exprs)]
fn indexed(alloc: Global, context: &Context, body: &mut Body, e: &Expr) -> Result<i64, TypingFault>
    ensures typed { IfOk result (λ k. IsIndex (view_context context.now) (view_body body.old) (source.view_expr e.now) k
        (view_body body.new)) }
    ensures refused { IfErr result (λ f. FailsBy f.cause
        (FailsAsIndex (view_context context.now) (view_body body.old) (source.view_expr e.now))) }
{
    match value(alloc, context, body, e) {
        Ok(y) => index_of(alloc, &y, span_of(e)),
        Err(fault) => Err(fault),
    }
}

// One more item of an array.
#[cycle(exprs)]
fn fill_one(
    alloc: Global,
    context: &Context,
    body: &mut Body,
    filling: &mut Filling,
    item: &Init,
) -> Result<(), TypingFault>
    ensures filled { OnOk result (FillsOne (view_context context.now) (view_body body.old) (view_body body.new)
        (view_filling filling.old) (view_filling filling.new) (source.view_init item.now)) }
    ensures refused { IfErr result (λ f. FailsBy f.cause (FailsOne (view_context context.now) (view_body body.old)
        (view_filling filling.old) (source.view_init item.now))) }
{
    match item {
        Init::Next { value: e } => match value(alloc, context, body, e) {
            Ok(x) => filling.put(filling.next, x),
            Err(fault) => Err(fault),
        },
        Init::At { index, value: e } => match indexed(alloc, context, body, index) {
            Err(fault) => Err(fault),
            Ok(number) => match value(alloc, context, body, e) {
                Ok(x) => filling.put(number, x),
                Err(fault) => Err(fault),
            },
        },
        Init::Rest { value: e } => {
            if filling.rest.is_some() {
                let at = span_of(e);
                return Err(TypingFault {
                    cause: Cause::Twice,
                    at,
                });
            }
            match value(alloc, context, body, e) {
                Ok(x) => {
                    filling.rest = Some(x);
                    Ok(())
                }
                Err(fault) => Err(fault),
            }
        }
    }
}

// The items of an array.
#[cycle(exprs)]
fn fill(
    alloc: Global,
    context: &Context,
    body: &mut Body,
    items: &[Init],
) -> Result<Filling, TypingFault>
    ensures typed { IfOk result (λ filling. Fill (view_context context.now) (view_body body.old) (pos 0) Absent
        (source.inits_of (map source.view_init items.now)) (items_of (map view_item filling.items.items)) (view_optional filling.rest)
        (view_body body.new)) }
    ensures refused { IfErr result (λ f. FailsBy f.cause (FailsFill (view_context context.now) (view_body body.old) (pos 0) Absent
        (source.inits_of (map source.view_init items.now)))) }
{
    let mut filling = Filling {
        items: Vec::new(alloc),
        rest: None,
        next: 0,
    };
    for item in items {
        match fill_one(alloc, context, body, &mut filling, item) {
            Ok(()) => {}
            Err(fault) => return Err(fault),
        }
    }
    Ok(filling)
}

/// `array[len] of { items }`
#[cycle(exprs)]
pub(crate) fn filled(
    alloc: Global,
    context: &Context,
    body: &mut Body,
    len: &Option<Box<Expr>>,
    items: &[Init],
    comma: bool,
    at: Span,
) -> Result<Box<TExpr>, TypingFault>
    ensures typed { IfOk result (λ z. Has (view_context context.now) (view_body body.old)
        (tree.Filled (source.view_part len.now) (source.inits_of (map source.view_init items.now)) comma)
        (view_expr z.value) (view_body body.new)) }
    ensures refused { IfErr result (λ f. FailsBy f.cause (FailsForm (view_context context.now) (view_body body.old)
        (tree.Filled (source.view_part len.now) (source.inits_of (map source.view_init items.now)) comma))) }
{
    match maybe(alloc, context, body, len) {
        Err(fault) => Err(fault),
        Ok(length) => match fill(alloc, context, body, items) {
            Ok(filling) => placed(filled_array(alloc, length, filling.items, filling.rest), at),
            Err(fault) => Err(fault),
        },
    }
}
