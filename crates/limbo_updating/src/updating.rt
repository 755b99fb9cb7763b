//! Assignments with an operator.

ghost use Rattle.std.specs.Prelude.{◌≡◌, IfOk, IfErr, IfSome, IfNone};
ghost use Rattle.limbo_types.specs.View.{view_ty};
ghost use Rattle.limbo_typed.specs.Typed as tree;
ghost use Rattle.limbo_typed.specs.View.{view_expr, view_place};
ghost use Rattle.limbo_typed.specs.Sound.{type_of};
ghost use Rattle.limbo_refusals.specs.Refusals as refusals;
ghost use Rattle.limbo_refusals.specs.Refusals.{Refuses, NoneIs};
ghost use Rattle.limbo_operators.specs.RowView.{view_row};
ghost use Rattle.limbo_updating.specs.Updating as rules;

use limbo_operands::{place_of, settled_as};
use limbo_operators::{Row, update_row};
use limbo_refusals::{ExprFault, clash_of};
use limbo_tree::AssignOp;
use limbo_typed::{Operation, Place, TExpr, TNode};
use limbo_types::{Ty, copy};
use std::alloc::{AllocError, Global};

// The row of the table for a place and a value, if it has one.
#[tactic(auto, using(crate::proofs::Updated::type_in_view))]
fn row_of(
    alloc: Global,
    op: AssignOp,
    place: &TExpr,
    value: &TExpr,
) -> Result<Option<Box<Row>>, AllocError>
    ensures found { IfOk result (λ o. IfSome o (λ r.
        rules.HasUpdateRow op (view_expr place.now) (view_expr value.now) (view_row r.value))) }
    ensures none { IfOk result (λ o. IfNone o (NoneIs (rules.HasUpdateRow op (view_expr place.now) (view_expr value.now)))) }
{
    match update_row(alloc, op, &place.ty, &value.ty)? {
        Some(row) => Ok(Some(Box::new(alloc, row)?)),
        None => Ok(None),
    }
}

// The type of an expression.
#[tactic(auto, using(crate::proofs::Updated::type_in_view))]
fn type_of(alloc: Global, e: &TExpr) -> Result<Box<Ty>, AllocError>
    ensures { IfOk result (λ t. view_ty t.value ≡ type_of (view_expr e.now)) }
{
    let t = copy(alloc, &e.ty)?;
    Ok(Box::new(alloc, t)?)
}

// The refusal of a place and a value by their types.
#[tactic(auto, using(crate::proofs::Updated::type_in_view))]
fn misfit(alloc: Global, place: &TExpr, value: &TExpr) -> ExprFault
    ensures { Refuses result (λ r. r ≡ refusals.Clash (type_of (view_expr place.now)) (type_of (view_expr value.now))) }
{
    clash_of(alloc, &place.ty, &value.ty)
}

// The change of a place of a type.
#[tactic(auto, using(limbo_typed::proofs::View::the_exprs))]
fn updated(
    alloc: Global,
    operation: Operation,
    of: &Ty,
    place: Box<Place>,
    value: Box<TExpr>,
) -> Result<Box<TExpr>, AllocError>
    ensures { IfOk result (λ e. view_expr e.value
        ≡ tree.Of (view_ty of.now) (tree.Update operation (view_place place.value) (view_expr value.value))) }
{
    let ty = copy(alloc, of)?;
    let node = TNode::Update {
        operation,
        place,
        value,
    };
    Ok(Box::new(alloc, TExpr { ty, node })?)
}

// What a place and a value are by a row that the table has for them: nothing, where the value isn't what the row asks.
fn by_row(
    alloc: Global,
    row: &Row,
    of: &Ty,
    place: Box<Place>,
    value: Box<TExpr>,
) -> Result<Option<Box<TExpr>>, AllocError>
    ensures given { IfOk result (λ o. IfSome o (λ e.
        rules.ByRow (view_row row.now) (view_ty of.now) (view_place place.value) (view_expr value.value) (view_expr e.value))) }
    ensures none { IfOk result (λ o. IfNone o (NoneIs
        (rules.ByRow (view_row row.now) (view_ty of.now) (view_place place.value) (view_expr value.value)))) }
{
    let Some(value) = settled_as(alloc, value, &row.right)? else {
        return Ok(None);
    };
    Ok(Some(updated(alloc, row.operation, of, place, value)?))
}

// By the row, or the refusal of what it asks.
fn with_row(
    alloc: Global,
    row: &Row,
    of: &Ty,
    place: Box<Place>,
    value: Box<TExpr>,
) -> Result<Box<TExpr>, ExprFault>
    ensures given { IfOk result (λ e.
        rules.ByRow (view_row row.now) (view_ty of.now) (view_place place.value) (view_expr value.value) (view_expr e.value)) }
    ensures refused { IfErr result (λ f. Refuses f (λ r. (r ≡ rules.asked (view_row row.now))
        × NoneIs (rules.ByRow (view_row row.now) (view_ty of.now) (view_place place.value) (view_expr value.value)))) }
{
    match by_row(alloc, row, of, place, value)? {
        Some(e) => Ok(e),
        None => Err(clash_of(alloc, &row.left, &row.right)),
    }
}

/// `place op= value`.
///
/// # Errors
/// Want of memory; `NotPlace` where the left operand is no place; `Clash` where the table has no row for the types, with these types, or
/// where the value isn't what its row asks, with the types that are asked.
pub fn update(
    alloc: Global,
    op: AssignOp,
    place: Box<TExpr>,
    value: Box<TExpr>,
) -> Result<Box<TExpr>, ExprFault>
    ensures typed { IfOk result (λ e. rules.Updates op (view_expr place.value) (view_expr value.value) (view_expr e.value)) }
    ensures refused { IfErr result (λ f. Refuses f (λ r. rules.UpdatingFails op (view_expr place.value) (view_expr value.value) r
        × NoneIs (rules.Updates op (view_expr place.value) (view_expr value.value)))) }
{
    let of = type_of(alloc, &place)?;
    let Some(row) = row_of(alloc, op, &place, &value)? else {
        return Err(refuse(alloc, place, &value));
    };
    match place_of(place) {
        Some(place) => with_row(alloc, &row, &of, place, value),
        None => Err(ExprFault::NotPlace),
    }
}

// The refusal of a left operand and a value for which the table has no row: that it is no place, or their types.
fn refuse(alloc: Global, place: Box<TExpr>, value: &TExpr) -> ExprFault
    ensures { Refuses result (rules.RowlessFails (view_expr place.value) (view_expr value.now)) }
{
    let fault = misfit(alloc, &place, value);
    match place_of(place) {
        Some(_) => fault,
        None => ExprFault::NotPlace,
    }
}
