//! Operators before one typed operand.

ghost use Rattle.std.specs.Prelude.{◌≡◌, IfOk, IfErr, IfSome, IfNone};
ghost use Rattle.limbo_types.specs.View.{view_ty};
ghost use Rattle.limbo_layout.specs.View.{view_defs};
ghost use Rattle.limbo_typed.specs.View.{view_expr};
ghost use Rattle.limbo_refusals.specs.Refusals.{Refuses, NoneIs};
ghost use Rattle.limbo_prefixes.specs.RowView.{view_one};
ghost use Rattle.limbo_combining.specs.Combining as rules;

use limbo_layout::AdtDef;
use limbo_operands::{one_operand, settled_as};
use limbo_prefixes::{OneRow, bytes_row, unary_row};
use limbo_refusals::{ExprFault, clash_of};
use limbo_tree::UnaryOp;
use limbo_typed::{Operation, TExpr, TNode};
use limbo_types::{Ty, copy};
use std::alloc::{AllocError, Global};

// An operation on one operand, which gives a value of a type.
#[tactic(auto, using(limbo_typed::proofs::View::the_exprs))]
fn applied_to(
    alloc: Global,
    operation: Operation,
    gives: &Ty,
    operand: Box<TExpr>,
) -> Result<Box<TExpr>, AllocError>
    ensures { IfOk result (λ e. view_expr e.value ≡ rules.applied_to operation (view_ty gives.now) (view_expr operand.value)) }
{
    let args = one_operand(alloc, operand)?;
    let node = TNode::Apply { operation, args };
    let ty = copy(alloc, gives)?;
    Ok(Box::new(alloc, TExpr { ty, node })?)
}

// The operand as what a row asks, if it stands there, and the operation on it.
fn by_one_row(
    alloc: Global,
    row: &OneRow,
    operand: Box<TExpr>,
) -> Result<Option<Box<TExpr>>, AllocError>
    ensures given { IfOk result (λ o. IfSome o (λ e. rules.ByOneRow (view_one row.now) (view_expr operand.value) (view_expr e.value))) }
    ensures none { IfOk result (λ o. IfNone o (NoneIs (rules.ByOneRow (view_one row.now) (view_expr operand.value)))) }
{
    let Some(operand) = settled_as(alloc, operand, &row.operand)? else {
        return Ok(None);
    };
    Ok(Some(applied_to(alloc, row.operation, &row.result, operand)?))
}

// By a row that the table has for the operand.
fn with_one_row(alloc: Global, row: &OneRow, operand: Box<TExpr>) -> Result<Box<TExpr>, ExprFault>
    ensures given { IfOk result (λ e. rules.ByOneRow (view_one row.now) (view_expr operand.value) (view_expr e.value)) }
    ensures refused { IfErr result (λ f. Refuses f (λ r. (r ≡ rules.asked_one (view_one row.now))
        × NoneIs (rules.ByOneRow (view_one row.now) (view_expr operand.value)))) }
{
    match by_one_row(alloc, row, operand)? {
        Some(e) => Ok(e),
        None => Err(clash_of(alloc, &row.operand, &row.operand)),
    }
}

// Whether an operator changes a place.
fn changes(op: UnaryOp) -> bool
    ensures { result ≡ rules.changes op }
{
    match op {
        UnaryOp::Increment => true,
        UnaryOp::Decrement => true,
        _ => false,
    }
}

// The row of the table for an operand, if it has one.
#[tactic(auto, using(crate::proofs::Combined::type_in_view))]
fn row_of(
    alloc: Global,
    defs: &[AdtDef],
    op: UnaryOp,
    operand: &TExpr,
) -> Result<Option<Box<OneRow>>, AllocError>
    ensures found { IfOk result (λ o. IfSome o (λ r. rules.HasOneRow (view_defs defs.now) op (view_expr operand.now) (view_one r.value))) }
    ensures none { IfOk result (λ o. IfNone o (NoneIs (rules.HasOneRow (view_defs defs.now) op (view_expr operand.now)))) }
{
    match unary_row(alloc, defs, op, &operand.ty)? {
        Some(row) => Ok(Some(Box::new(alloc, row)?)),
        None => Ok(None),
    }
}

// The row of `array of byte` for an operand, if there is one.
#[tactic(auto, using(crate::proofs::Combined::type_in_view))]
fn bytes_row_of(alloc: Global, operand: &TExpr) -> Result<Option<Box<OneRow>>, AllocError>
    ensures found { IfOk result (λ o. IfSome o (λ r. rules.HasBytesRow (view_expr operand.now) (view_one r.value))) }
    ensures none { IfOk result (λ o. IfNone o (NoneIs (rules.HasBytesRow (view_expr operand.now)))) }
{
    match bytes_row(alloc, &operand.ty)? {
        Some(row) => Ok(Some(Box::new(alloc, row)?)),
        None => Ok(None),
    }
}

// The refusal of an operand by its type.
#[tactic(auto, using(crate::proofs::Combined::type_in_view))]
fn misfit(alloc: Global, operand: &TExpr) -> ExprFault
    ensures { Refuses result (λ r. r ≡ rules.types_of (view_expr operand.now) (view_expr operand.now)) }
{
    clash_of(alloc, &operand.ty, &operand.ty)
}

/// `op operand`, of an operator that changes no place; of the others there is no row here.
///
/// # Errors
/// Want of memory; `Clash` where the table has no row for the operand's type, with that type twice, or where the operand isn't what its
/// row asks, with the type that is asked twice.
pub fn operate(
    alloc: Global,
    defs: &[AdtDef],
    op: UnaryOp,
    operand: Box<TExpr>,
) -> Result<Box<TExpr>, ExprFault>
    ensures typed { IfOk result (λ e. rules.Operates (view_defs defs.now) op (view_expr operand.value) (view_expr e.value)) }
    ensures refused { IfErr result (λ f. Refuses f (λ r.
        rules.OperandClashes (rules.HasOneRow (view_defs defs.now) op (view_expr operand.value)) (view_expr operand.value) r
        × NoneIs (rules.Operates (view_defs defs.now) op (view_expr operand.value)))) }
{
    if changes(op) {
        return Err(misfit(alloc, &operand));
    }
    match row_of(alloc, defs, op, &operand)? {
        Some(row) => with_one_row(alloc, &row, operand),
        None => Err(misfit(alloc, &operand)),
    }
}

/// `array of byte operand`: a string's bytes.
///
/// # Errors
/// Want of memory; `Clash` as of `operate`.
pub fn text_bytes(alloc: Global, operand: Box<TExpr>) -> Result<Box<TExpr>, ExprFault>
    ensures typed { IfOk result (λ e. rules.BytesOf (view_expr operand.value) (view_expr e.value)) }
    ensures refused { IfErr result (λ f. Refuses f (λ r.
        rules.OperandClashes (rules.HasBytesRow (view_expr operand.value)) (view_expr operand.value) r
        × NoneIs (rules.BytesOf (view_expr operand.value)))) }
{
    match bytes_row_of(alloc, &operand)? {
        Some(row) => with_one_row(alloc, &row, operand),
        None => Err(misfit(alloc, &operand)),
    }
}
