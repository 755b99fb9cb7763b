//! Assignments.

ghost use Rattle.std.specs.Prelude.{◌≡◌, IfOk, IfErr, IfSome, IfNone, map};
ghost use Rattle.limbo_types.specs.View.{view_ty, view_tys};
ghost use Rattle.limbo_typed.specs.View.{view_expr, view_pattern, patterns_of};
ghost use Rattle.limbo_typed.specs.Sound.{type_of};
ghost use Rattle.limbo_refusals.specs.Refusals as refusals;
ghost use Rattle.limbo_refusals.specs.Refusals.{Refuses, NoneIs};
ghost use Rattle.limbo_forms.specs.Forms as forms;
ghost use Rattle.limbo_assigning.specs.Assigning as rules;
ghost use Rattle.limbo_assigning.specs.Choosing as choosing;

use crate::asking::asked_of;
use limbo_forms::{element_of, is_int, is_settled};
use limbo_operands::settled_as;
use limbo_refusals::{ExprFault, clash_of};
use limbo_typed::{Pattern, TExpr, TNode};
use limbo_types::{Ty, copy};
use std::alloc::{AllocError, Global};

// The type of what an assignment gives.
#[tactic(auto, using(limbo_typed::proofs::View::the_exprs))]
fn given(alloc: Global, pattern: &Pattern, value: &Ty) -> Result<Ty, AllocError>
    ensures { IfOk result (λ t. view_ty t ≡ rules.given (view_pattern pattern.now) (view_ty value.now)) }
{
    match pattern {
        Pattern::Place(place) => copy(alloc, &place.ty),
        Pattern::Nothing => copy(alloc, value),
        Pattern::Tuple(_) => copy(alloc, value),
    }
}

// The type of a pattern.
#[tactic(auto, using(limbo_typed::proofs::View::the_exprs, limbo_types::proofs::View::the_types))]
#[cycle(telling)]
fn type_in(alloc: Global, pattern: &Pattern) -> Result<Ty, AllocError>
    ensures { IfOk result (λ t. view_ty t ≡ rules.type_in (view_pattern pattern.now)) }
{
    match pattern {
        Pattern::Place(place) => copy(alloc, &place.ty),
        Pattern::Nothing => Ok(Ty::Nil),
        Pattern::Tuple(patterns) => Ok(Ty::Tuple(types_in(alloc, patterns)?)),
    }
}

#[cycle(telling)]
fn types_in(alloc: Global, patterns: &[Pattern]) -> Result<Vec<Ty>, AllocError>
    ensures { IfOk result (λ ts. view_tys ts.items ≡ rules.types_in (patterns_of (map view_pattern patterns.now))) }
{
    let mut types = Vec::new(alloc);
    for pattern in patterns {
        types.push(type_in(alloc, pattern)?)?;
    }
    Ok(types)
}

// The fault of a pattern that a value doesn't fit.
fn misfit(alloc: Global, pattern: &Pattern, value: &Ty) -> ExprFault
    ensures { Refuses result (λ r. r ≡ refusals.Clash (rules.type_in (view_pattern pattern.now)) (view_ty value.now)) }
{
    match boxed_type_in(alloc, pattern) {
        Ok(t) => clash_of(alloc, &t, value),
        Err(_) => ExprFault::NoMemory,
    }
}

fn boxed_type_in(alloc: Global, pattern: &Pattern) -> Result<Box<Ty>, AllocError>
    ensures { IfOk result (λ t. view_ty t.value ≡ rules.type_in (view_pattern pattern.now)) }
{
    let t = type_in(alloc, pattern)?;
    Ok(Box::new(alloc, t)?)
}

// The type that is asked of a value, if there is one.
fn asked_type(
    alloc: Global,
    pattern: &Pattern,
    value: &TExpr,
) -> Result<Option<Box<Ty>>, AllocError>
    ensures asked { IfOk result (λ o. IfSome o (λ t.
        rules.Asks (view_pattern pattern.now) (type_of (view_expr value.now)) (view_ty t.value))) }
    ensures none { IfOk result (λ o. IfNone o (NoneIs (rules.Asks (view_pattern pattern.now) (type_of (view_expr value.now))))) }
{
    match asked_of(alloc, pattern, &value.ty)? {
        Some(t) => Ok(Some(Box::new(alloc, t)?)),
        None => Ok(None),
    }
}

// The type of a value, to be told where it doesn't stand.
#[tactic(auto, using(crate::proofs::Told::type_in_view))]
fn type_before(alloc: Global, value: &TExpr) -> Result<Box<Ty>, AllocError>
    ensures { IfOk result (λ t. view_ty t.value ≡ type_of (view_expr value.now)) }
{
    let t = copy(alloc, &value.ty)?;
    Ok(Box::new(alloc, t)?)
}

// The assignment of a value that stands where the pattern says.
#[tactic(auto, using(limbo_typed::proofs::View::the_exprs))]
fn assigned(
    alloc: Global,
    pattern: Box<Pattern>,
    value: Box<TExpr>,
) -> Result<Box<TExpr>, AllocError>
    ensures { IfOk result (λ e. view_expr e.value ≡ rules.assignment (view_pattern pattern.value) (view_expr value.value)) }
{
    let ty = given(alloc, &pattern, &value.ty)?;
    let node = TNode::Assign { pattern, value };
    Ok(Box::new(alloc, TExpr { ty, node })?)
}

/// `pattern = value`: it gives the value, of the place's type where it goes to one.
///
/// # Errors
/// Want of memory; `Clash` where the value doesn't stand there, with the pattern's type and its own.
pub fn assign(
    alloc: Global,
    pattern: Box<Pattern>,
    value: Box<TExpr>,
) -> Result<Box<TExpr>, ExprFault>
    ensures typed { IfOk result (λ e. rules.Assigns (view_pattern pattern.value) (view_expr value.value) (view_expr e.value)) }
    ensures refused { IfErr result (λ f. Refuses f (λ r.
        (r ≡ refusals.Clash (rules.type_in (view_pattern pattern.value)) (type_of (view_expr value.value)))
        × NoneIs (rules.Assigns (view_pattern pattern.value) (view_expr value.value)))) }
{
    let before = type_before(alloc, &value)?;
    let Some(asked) = asked_type(alloc, &pattern, &value)? else {
        return Err(misfit(alloc, &pattern, &before));
    };
    let Some(settled) = settled_as(alloc, value, &asked)? else {
        return Err(misfit(alloc, &pattern, &before));
    };
    Ok(assigned(alloc, pattern, settled)?)
}

// The copy of a value's elements into an array.
#[tactic(auto, using(limbo_typed::proofs::View::the_exprs))]
fn copied(
    alloc: Global,
    array: Box<TExpr>,
    from: Box<TExpr>,
    value: Box<TExpr>,
) -> Result<Box<TExpr>, AllocError>
    ensures { IfOk result (λ e. view_expr e.value ≡ rules.copy (view_expr array.value) (view_expr from.value) (view_expr value.value)) }
{
    let ty = copy(alloc, &array.ty)?;
    let node = TNode::Copy { array, from, value };
    Ok(Box::new(alloc, TExpr { ty, node })?)
}

// Whether an expression is an array of which is known what it holds.
#[tactic(auto, using(crate::proofs::Told::type_in_view))]
fn is_array(e: &TExpr) -> bool
    ensures { result ≡ choosing.is_known_array (type_of (view_expr e.now)) }
{
    match element_of(&e.ty) {
        Some(item) => is_settled(item),
        None => false,
    }
}

#[tactic(auto, using(crate::proofs::Told::type_in_view))]
fn has_int(e: &TExpr) -> bool
    ensures { result ≡ forms.is_int (type_of (view_expr e.now)) }
{
    is_int(&e.ty)
}

// The refusal of an expression where a type is asked for.
#[tactic(auto, using(crate::proofs::Told::type_in_view))]
fn clash_with(alloc: Global, left: &TExpr, right: &Ty) -> ExprFault
    ensures { Refuses result (λ r. r ≡ refusals.Clash (type_of (view_expr left.now)) (view_ty right.now)) }
{
    clash_of(alloc, &left.ty, right)
}

/// `array[from:] = value`: the value's elements are copied into the array. It gives the value.
///
/// # Errors
/// Want of memory; `Clash` where the array is none or its type isn't known, or where the value isn't of its type, with both types; where
/// the index is no int, with its type and int.
#[tactic(auto, using(limbo_types::proofs::View::the_types))]
pub fn copy_into(
    alloc: Global,
    array: Box<TExpr>,
    from: Box<TExpr>,
    value: Box<TExpr>,
) -> Result<Box<TExpr>, ExprFault>
    ensures typed { IfOk result (λ e.
        rules.Copies (view_expr array.value) (view_expr from.value) (view_expr value.value) (view_expr e.value)) }
    ensures refused { IfErr result (λ f. Refuses f (λ r.
        rules.CopyingFails (view_expr array.value) (view_expr from.value) (view_expr value.value) r
        × NoneIs (rules.Copies (view_expr array.value) (view_expr from.value) (view_expr value.value)))) }
{
    let before = type_before(alloc, &value)?;
    if !is_array(&array) {
        return Err(clash_with(alloc, &array, &before));
    }
    if !has_int(&from) {
        return Err(clash_with(alloc, &from, &Ty::Int));
    }
    let Some(settled) = settled_as(alloc, value, &array.ty)? else {
        return Err(clash_with(alloc, &array, &before));
    };
    Ok(copied(alloc, array, from, settled)?)
}
