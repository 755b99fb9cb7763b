//! Tuples, lists, arrays and channels.

ghost use Rattle.std.specs.Prelude.{◌≡◌, IfOk, IfErr, map};
ghost use Rattle.limbo_types.specs.Types.{ListOf, ArrayOf, Int};
ghost use Rattle.limbo_types.specs.View.{view_ty};
ghost use Rattle.limbo_typed.specs.declared.operation.Operation.TheVariants as op;
ghost use Rattle.limbo_typed.specs.Typed as tree;
ghost use Rattle.limbo_typed.specs.View.{view_expr, view_exprs, view_item, view_optional, items_of};
ghost use Rattle.limbo_typed.specs.Sound.{type_of};
ghost use Rattle.limbo_refusals.specs.Refusals.{Refuses, NoneIs};
ghost use Rattle.limbo_refusals.specs.Refusals as refusals;
ghost use Rattle.limbo_standing.specs.Standing.{SettleItems, SettleRest};
ghost use Rattle.limbo_literals.specs.Literals.{Tuples, Lists, IsLength, Fills, Sizes, Makes};
ghost use Rattle.limbo_literals.specs.Refusing.{RefusesList, NoLength, NoLengthIn, RefusesFill, UnlikeItems};

use crate::element::{common_item_type, common_type, copy_types, settle_items, settle_rest};
use limbo_arguments::{expr_of, settle_all};
use limbo_forms::{is_int, is_settled};
use limbo_refusals::{ExprFault, clash_of};
use limbo_typed::{Item, Operation, TExpr, TNode};
use limbo_types::Ty;
use std::alloc::{AllocError, Global};

/// `(a, b, ..)`: the types are those of the parts as they are, open ones too.
///
/// # Errors
/// Want of memory.
#[tactic(auto, using(limbo_types::proofs::View::the_types, limbo_typed::proofs::View::the_exprs))]
pub fn tuple(alloc: Global, parts: Vec<TExpr>) -> Result<Box<TExpr>, AllocError>
    ensures typed { IfOk result (λ e. Tuples (view_exprs parts.items) (view_expr e.value)) }
{
    let types = copy_types(alloc, &parts)?;
    let node = TNode::Apply {
        operation: Operation::Tuple,
        args: parts,
    };
    expr_of(alloc, Ty::Tuple(types), node)
}

// A list of elements of a type.
#[tactic(auto, using(limbo_types::proofs::View::the_types, limbo_typed::proofs::View::the_exprs))]
fn list_of(alloc: Global, item: Ty, elements: Vec<TExpr>) -> Result<Box<TExpr>, AllocError>
    ensures { IfOk result (λ e. view_expr e.value ≡ tree.Of (ListOf (view_ty item)) (tree.Apply op.List (view_exprs elements.items))) }
{
    let item = Box::new(alloc, item)?;
    let node = TNode::Apply {
        operation: Operation::List,
        args: elements,
    };
    expr_of(alloc, Ty::List(item), node)
}

/// `list of { .. }`: its elements are what they are where the type is asked for that they have together. Where nothing says yet what
/// they are, the list is open.
///
/// # Errors
/// Two types of which elements can't stand together, or of which one doesn't stand for the other; want of memory.
pub fn list(alloc: Global, elements: Vec<TExpr>) -> Result<Box<TExpr>, ExprFault>
    ensures typed { IfOk result (λ e. Lists (view_exprs elements.items) (view_expr e.value)) }
    ensures refused { IfErr result
        (λ f. Refuses f (λ r. RefusesList (view_exprs elements.items) r × NoneIs (Lists (view_exprs elements.items)))) }
{
    let item = common_type(alloc, &elements)?;
    if !is_settled(&item) {
        return Ok(list_of(alloc, Ty::Nil, elements)?);
    }
    let settled = settle_all(alloc, elements, &item)?;
    Ok(list_of(alloc, item, settled)?)
}

// Whether a length is an int.
fn check_length(alloc: Global, length: &TExpr) -> Result<(), ExprFault>
    ensures int { IfOk result (λ _. type_of (view_expr length.now) ≡ Int) }
    ensures refused { IfErr result (λ f. Refuses f (NoLength (view_expr length.now))) }
{
    if is_int(&length.ty) {
        return Ok(());
    }
    Err(clash_of(alloc, &length.ty, &Ty::Int))
}

// The same of a length, if there is one.
#[tactic(auto, using(limbo_typed::proofs::View::the_exprs))]
fn check_length_in(alloc: Global, length: &Option<Box<TExpr>>) -> Result<(), ExprFault>
    ensures int { IfOk result (λ _. IsLength (view_optional length.now)) }
    ensures refused { IfErr result (λ f. Refuses f (NoLengthIn (view_optional length.now))) }
{
    match length {
        Some(length) => check_length(alloc, length),
        None => Ok(()),
    }
}

// An array of its elements.
#[tactic(auto, using(limbo_types::proofs::View::the_types, limbo_typed::proofs::View::the_exprs))]
fn array_of(
    alloc: Global,
    item: Ty,
    length: Option<Box<TExpr>>,
    items: Vec<Item>,
    rest: Option<Box<TExpr>>,
) -> Result<Box<TExpr>, AllocError>
    ensures { IfOk result (λ e. view_expr e.value ≡ tree.Of (ArrayOf (view_ty item))
        (tree.Filled (view_optional length) (items_of (map view_item items.items)) (view_optional rest))) }
{
    let item = Box::new(alloc, item)?;
    let node = TNode::Filled {
        length,
        items,
        rest,
    };
    expr_of(alloc, Ty::Array(item), node)
}

// The same where a type is asked of the elements.
fn settled_array(
    alloc: Global,
    item: Ty,
    length: Option<Box<TExpr>>,
    items: Vec<Item>,
    mut rest: Option<Box<TExpr>>,
) -> Result<Box<TExpr>, ExprFault>
    ensures typed { IfOk result (λ e. (js : tree.Items) × (last : tree.Optional)
        × SettleItems (view_ty item) (items_of (map view_item items.items)) js × SettleRest (view_ty item) (view_optional rest) last
        × (view_expr e.value ≡ tree.Of (ArrayOf (view_ty item)) (tree.Filled (view_optional length) js last))) }
    ensures refused { IfErr result
        (λ f. Refuses f (UnlikeItems (view_ty item) (items_of (map view_item items.items)) (view_optional rest))) }
{
    let settled = settle_items(alloc, items, &item)?;
    settle_rest(alloc, &mut rest, &item)?;
    Ok(array_of(alloc, item, length, settled, rest)?)
}

/// `array[length] of { items, * => rest }`, with the indices that the items have. Without a length there is none in brackets. Its elements
/// are what those of a list are.
///
/// # Errors
/// The type of a length that is no int, beside `int`; what is told of elements as of a list's; want of memory.
pub fn filled_array(
    alloc: Global,
    length: Option<Box<TExpr>>,
    items: Vec<Item>,
    rest: Option<Box<TExpr>>,
) -> Result<Box<TExpr>, ExprFault>
    ensures typed { IfOk result (λ e. Fills (view_optional length) (items_of (map view_item items.items)) (view_optional rest)
        (view_expr e.value)) }
    ensures refused { IfErr result
        (λ f. Refuses f (λ r. RefusesFill (view_optional length) (items_of (map view_item items.items)) (view_optional rest) r
        × NoneIs (Fills (view_optional length) (items_of (map view_item items.items)) (view_optional rest)))) }
{
    check_length_in(alloc, &length)?;
    let item = common_item_type(alloc, &items, &rest)?;
    if !is_settled(&item) {
        return Ok(array_of(alloc, Ty::Nil, length, items, rest)?);
    }
    settled_array(alloc, item, length, items, rest)
}

// One value as a list of arguments.
fn one_arg(alloc: Global, value: Box<TExpr>) -> Result<Vec<TExpr>, AllocError>
    ensures { IfOk result (λ args. view_exprs args.items ≡ tree.MoreExprs (view_expr value.value) tree.NoExprs) }
{
    let mut args = Vec::with_capacity(alloc, 1)?;
    args.push_reserved(Box::into_inner(value));
    Ok(args)
}

/// `array[length] of` a type: each element is zero or `nil`.
///
/// # Errors
/// The type of a length that is no int, beside `int`; want of memory.
#[tactic(auto, using(limbo_types::proofs::View::the_types, limbo_typed::proofs::View::the_exprs))]
pub fn new_array(alloc: Global, length: Box<TExpr>, item: Box<Ty>) -> Result<Box<TExpr>, ExprFault>
    ensures typed { IfOk result (λ e. Sizes (view_expr length.value) (view_ty item.value) (view_expr e.value)) }
    ensures refused { IfErr result (λ f. Refuses f (λ r. NoLength (view_expr length.value) r
        × NoneIs (Sizes (view_expr length.value) (view_ty item.value)))) }
{
    check_length(alloc, &length)?;
    let node = TNode::Apply {
        operation: Operation::NewArray,
        args: one_arg(alloc, length)?,
    };
    Ok(expr_of(alloc, Ty::Array(item), node)?)
}

/// `chan of` a type.
///
/// # Errors
/// Want of memory.
#[tactic(auto, using(limbo_types::proofs::View::the_types, limbo_typed::proofs::View::the_exprs))]
pub fn channel(alloc: Global, item: Box<Ty>) -> Result<Box<TExpr>, AllocError>
    ensures typed { IfOk result (λ e. Makes (view_ty item.value) (view_expr e.value)) }
{
    expr_of(alloc, Ty::Chan(item), TNode::Channel { size: None })
}
