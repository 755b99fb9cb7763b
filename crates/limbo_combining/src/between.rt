//! Operators between two typed operands.

ghost use Rattle.std.specs.Prelude.{◌≡◌, IfOk, IfErr, IfSome, IfNone};
ghost use Rattle.limbo_types.specs.View.{view_ty};
ghost use Rattle.limbo_typed.specs.View.{view_expr};
ghost use Rattle.limbo_refusals.specs.Refusals.{Refuses, NoneIs};
ghost use Rattle.limbo_operators.specs.RowView.{view_row};
ghost use Rattle.limbo_combining.specs.Combining as rules;

use limbo_operands::{settled_as, two_operands};
use limbo_operators::{Row, binary_of, binary_row, lazy_row};
use limbo_refusals::{ExprFault, clash_of};
use limbo_tree::BinaryOp;
use limbo_typed::{Connective, Operation, TExpr, TNode};
use limbo_types::{Ty, copy};
use std::alloc::{AllocError, Global};

// `&&` or `||` of two ints.
#[tactic(auto, using(limbo_typed::proofs::View::the_exprs, limbo_types::proofs::View::the_types))]
fn lazily(
    alloc: Global,
    connective: Connective,
    left: Box<TExpr>,
    right: Box<TExpr>,
) -> Result<Box<TExpr>, AllocError>
    ensures { IfOk result (λ e. view_expr e.value ≡ rules.lazy connective (view_expr left.value) (view_expr right.value)) }
{
    let node = TNode::Lazy {
        connective,
        left,
        right,
    };
    Ok(Box::new(alloc, TExpr { ty: Ty::Int, node })?)
}

// An operation on two operands, which gives a value of a type.
#[tactic(auto, using(limbo_typed::proofs::View::the_exprs))]
fn applied(
    alloc: Global,
    operation: Operation,
    gives: &Ty,
    left: Box<TExpr>,
    right: Box<TExpr>,
) -> Result<Box<TExpr>, AllocError>
    ensures { IfOk result (λ e.
        view_expr e.value ≡ rules.applied operation (view_ty gives.now) (view_expr left.value) (view_expr right.value)) }
{
    let args = two_operands(alloc, left, right)?;
    let node = TNode::Apply { operation, args };
    let ty = copy(alloc, gives)?;
    Ok(Box::new(alloc, TExpr { ty, node })?)
}

// The operands as what a row asks, if they stand there, and the operation on them.
fn by_row(
    alloc: Global,
    row: &Row,
    left: Box<TExpr>,
    right: Box<TExpr>,
) -> Result<Option<Box<TExpr>>, AllocError>
    ensures given { IfOk result (λ o. IfSome o (λ e.
        rules.ByRow (view_row row.now) (view_expr left.value) (view_expr right.value) (view_expr e.value))) }
    ensures none { IfOk result (λ o. IfNone o (NoneIs (rules.ByRow (view_row row.now) (view_expr left.value) (view_expr right.value)))) }
{
    let Some(left) = settled_as(alloc, left, &row.left)? else {
        return Ok(None);
    };
    let Some(right) = settled_as(alloc, right, &row.right)? else {
        return Ok(None);
    };
    Ok(Some(applied(alloc, row.operation, &row.result, left, right)?))
}

// By a row that the table has for the operands.
fn with_row(
    alloc: Global,
    row: &Row,
    left: Box<TExpr>,
    right: Box<TExpr>,
) -> Result<Box<TExpr>, ExprFault>
    ensures given { IfOk result (λ e. rules.ByRow (view_row row.now) (view_expr left.value) (view_expr right.value) (view_expr e.value)) }
    ensures refused { IfErr result (λ f. Refuses f (λ r. (r ≡ rules.asked (view_row row.now))
        × NoneIs (rules.ByRow (view_row row.now) (view_expr left.value) (view_expr right.value)))) }
{
    match by_row(alloc, row, left, right)? {
        Some(e) => Ok(e),
        None => Err(clash_of(alloc, &row.left, &row.right)),
    }
}

// The row of the table for two operands, if it has one.
#[tactic(auto, using(crate::proofs::Combined::type_in_view))]
fn row_of(
    alloc: Global,
    op: BinaryOp,
    left: &TExpr,
    right: &TExpr,
) -> Result<Option<Box<Row>>, AllocError>
    ensures found { IfOk result (λ o. IfSome o (λ r. rules.HasRow op (view_expr left.now) (view_expr right.now) (view_row r.value))) }
    ensures none { IfOk result (λ o. IfNone o (NoneIs (rules.HasRow op (view_expr left.now) (view_expr right.now)))) }
{
    match binary_row(alloc, binary_of(op), &left.ty, &right.ty)? {
        Some(row) => Ok(Some(Box::new(alloc, row)?)),
        None => Ok(None),
    }
}

// Which of `&&` and `||` an operator between two ints is, if it is one.
#[tactic(auto, using(crate::proofs::Combined::type_in_view))]
fn connective_of(op: BinaryOp, left: &TExpr, right: &TExpr) -> Option<Connective>
    ensures found { IfSome result (λ c. rules.IsLazy op (view_expr left.now) (view_expr right.now) c) }
    ensures none { IfNone result (NoneIs (rules.IsLazy op (view_expr left.now) (view_expr right.now))) }
{
    lazy_row(binary_of(op), &left.ty, &right.ty)
}

// The refusal of two operands by their types.
#[tactic(auto, using(crate::proofs::Combined::type_in_view))]
fn misfit(alloc: Global, left: &TExpr, right: &TExpr) -> ExprFault
    ensures { Refuses result (λ r. r ≡ rules.types_of (view_expr left.now) (view_expr right.now)) }
{
    clash_of(alloc, &left.ty, &right.ty)
}

/// `left op right`.
///
/// # Errors
/// Want of memory; `Clash` where the table has no row for the operands' types, with these types, or where an operand isn't what its
/// row asks, with the types that are asked.
pub fn combine(
    alloc: Global,
    op: BinaryOp,
    left: Box<TExpr>,
    right: Box<TExpr>,
) -> Result<Box<TExpr>, ExprFault>
    ensures typed { IfOk result (λ e. rules.Combines op (view_expr left.value) (view_expr right.value) (view_expr e.value)) }
    ensures refused { IfErr result (λ f. Refuses f (λ r. rules.CombiningClashes op (view_expr left.value) (view_expr right.value) r
        × NoneIs (rules.Combines op (view_expr left.value) (view_expr right.value)))) }
{
    if let Some(connective) = connective_of(op, &left, &right) {
        return Ok(lazily(alloc, connective, left, right)?);
    }
    match row_of(alloc, op, &left, &right)? {
        Some(row) => with_row(alloc, &row, left, right),
        None => Err(misfit(alloc, &left, &right)),
    }
}
