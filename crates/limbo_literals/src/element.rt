//! The elements of a literal.

ghost use Rattle.std.specs.Prelude.{◌≡◌, ◌∷◌, ◌++◌, [], IfOk, IfErr, List, None, Some, map, option_map};
ghost use Rattle.limbo_types.specs.Types.{Ty as AnyTy};
ghost use Rattle.limbo_types.specs.View.{view_ty};
ghost use Rattle.limbo_typed.specs.View.{view_expr, view_exprs, view_item, view_optional, items_of};
ghost use Rattle.limbo_typed.specs.Sound.{types_of};
ghost use Rattle.limbo_typed.specs.declared.expr.Item as code_item;
ghost use Rattle.limbo_refusals.specs.Refusals.{Refuses};
ghost use Rattle.limbo_refusals.specs.Refusals as refusals;
ghost use Rattle.limbo_standing.specs.Joining.{Joins};
ghost use Rattle.limbo_standing.specs.Joining as joining;
ghost use Rattle.limbo_standing.specs.Standing.{SettleItems, SettleRest};
ghost use Rattle.limbo_literals.specs.Literals.{element_types};
ghost use Rattle.limbo_literals.specs.Refusing.{Apart, FailsItems, FailsRest};

use limbo_arguments::settle_or_clash;
use limbo_refusals::{ExprFault, clash_of};
use limbo_standing::{join, or_nil};
use limbo_typed::{Item, TExpr};
use limbo_types::{Ty, copy};
use std::alloc::{AllocError, Global};

/// The types of expressions.
///
/// # Errors
/// Want of memory.
pub(crate) fn copy_types(alloc: Global, exprs: &[TExpr]) -> Result<Vec<Ty>, AllocError>
    ensures { IfOk result (λ ts. map view_ty ts.items ≡ types_of (view_exprs exprs.now)) }
{
    let mut types = Vec::new(alloc);
    for expr in exprs {
        types.push(copy(alloc, &expr.ty)?)?;
    }
    Ok(types)
}

// Lets one more type stand with those so far; where it can't, that is told of it and of the first of all.
fn join_one(alloc: Global, found: &mut Option<Ty>, first: &Ty, t: &Ty) -> Result<(), ExprFault>
    ensures joined { IfOk result
        (λ _. joining.join (option_map view_ty found.old) (view_ty t.now) ≡ Some (option_map view_ty found.new)) }
    ensures refused { IfErr result (λ f. Refuses f (λ r. (joining.join (option_map view_ty found.old) (view_ty t.now) ≡ None)
        × (r ≡ refusals.Clash (view_ty first.now) (view_ty t.now)))) }
{
    if join(alloc, found, t)? {
        return Ok(());
    }
    Err(clash_of(alloc, first, t))
}

/// The type that elements have together.
///
/// # Errors
/// The first element's type beside that of the first that has none with those before it; want of memory.
pub(crate) fn common_type(alloc: Global, elements: &[TExpr]) -> Result<Ty, ExprFault>
    ensures found { IfOk result (λ t. Joins (types_of (view_exprs elements.now)) (view_ty t)) }
    ensures refused { IfErr result (λ f. Refuses f (Apart (types_of (view_exprs elements.now)))) }
{
    let mut found = None;
    for element in elements {
        join_one(alloc, &mut found, &elements[0].ty, &element.ty)?;
    }
    Ok(or_nil(found))
}

// The type of an array's first element.
fn first_type<'a>(items: &'a [Item], rest: &'a TExpr) -> &'a Ty
    ensures { (others : List AnyTy) × (map (λ (i : code_item.Item). view_ty i.value.ty) items.now ++ view_ty rest.now.ty ∷ []
        ≡ view_ty result.now ∷ others) }
{
    match items.first() {
        Some(item) => &item.value.ty,
        None => &rest.ty,
    }
}

/// The type that an array's elements have together: those that have an index, and the one that stands at each other index.
///
/// # Errors
/// As of `common_type`.
pub(crate) fn common_item_type(
    alloc: Global,
    items: &[Item],
    rest: &Option<Box<TExpr>>,
) -> Result<Ty, ExprFault>
    ensures found { IfOk result
        (λ t. Joins (element_types (items_of (map view_item items.now)) (view_optional rest.now)) (view_ty t)) }
    ensures refused { IfErr result
        (λ f. Refuses f (Apart (element_types (items_of (map view_item items.now)) (view_optional rest.now)))) }
{
    let mut found = None;
    for item in items {
        join_one(alloc, &mut found, &items[0].value.ty, &item.value.ty)?;
    }
    match rest {
        None => Ok(or_nil(found)),
        Some(value) => {
            join_one(alloc, &mut found, first_type(items, value), &value.ty)?;
            Ok(or_nil(found))
        }
    }
}

/// Lets the elements that have an index stand where a type is asked for.
///
/// # Errors
/// The type of the first that doesn't stand, beside that one; want of memory.
pub(crate) fn settle_items(
    alloc: Global,
    mut items: Vec<Item>,
    asked: &Ty,
) -> Result<Vec<Item>, ExprFault>
    ensures settled { IfOk result (λ js. SettleItems (view_ty asked.now) (items_of (map view_item items.items))
        (items_of (map view_item js.items))) }
    ensures refused { IfErr result (λ f. Refuses f (FailsItems (view_ty asked.now) (items_of (map view_item items.items)))) }
{
    for item in items.iter_mut() {
        settle_or_clash(alloc, &mut item.value, asked)?;
    }
    Ok(items)
}

/// Lets the element that stands at each other index, if there is one, stand where a type is asked for.
///
/// # Errors
/// Its type beside that one, where it doesn't stand; want of memory.
#[tactic(auto, using(limbo_typed::proofs::View::the_exprs))]
pub(crate) fn settle_rest(
    alloc: Global,
    rest: &mut Option<Box<TExpr>>,
    asked: &Ty,
) -> Result<(), ExprFault>
    ensures settled { IfOk result (λ _. SettleRest (view_ty asked.now) (view_optional rest.old) (view_optional rest.new)) }
    ensures refused { IfErr result (λ f. Refuses f (FailsRest (view_ty asked.now) (view_optional rest.old))) }
{
    match rest {
        Some(value) => settle_or_clash(alloc, value, asked),
        None => Ok(()),
    }
}
