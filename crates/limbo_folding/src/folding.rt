//! What typed expressions come to.

ghost use Rattle.std.specs.Prelude.{◌≡◌, IfOk, map};
ghost use Rattle.limbo_types.specs.View.{view_ty};
ghost use Rattle.limbo_typed.specs.View.{view_expr, exprs_of};
ghost use Rattle.limbo_folding.specs.Folding as folding;

use crate::operations::{folds, with_one, with_two};
use crate::outcome::{Outcome, number, with_lazy};
use limbo_forms::kind_of;
use limbo_typed::{Constant, Operation, TExpr, TNode};
use limbo_types::Ty;
use std::alloc::{AllocError, Global};

// A number of a number's type.
fn literal(ty: &Ty, n: i64) -> Option<Outcome>
    ensures { result ≡ folding.literal (view_ty ty.now) n }
{
    match kind_of(ty) {
        Some(_) => Some(number(n)),
        None => None,
    }
}

// What an expression comes to, if it is constant.
#[cycle(finding)]
fn find(alloc: Global, e: &TExpr) -> Result<Option<Outcome>, AllocError>
    ensures { IfOk result (λ o. o ≡ folding.outcome (view_expr e.now)) }
{
    match &e.node {
        TNode::Number(n) => Ok(literal(&e.ty, *n)),
        TNode::Chars(text) => {
            let text = text.clone()?;
            Ok(Some(Outcome::Gives(Constant::Chars(text))))
        }
        TNode::Apply { operation, args } => find_applied(alloc, *operation, args),
        TNode::Lazy {
            connective,
            left,
            right,
        } => {
            let left = find(alloc, left)?;
            let right = find(alloc, right)?;
            Ok(with_lazy(*connective, left, right))
        }
        _ => Ok(None),
    }
}

// What an operation comes to, if it and its operands are constant.
#[cycle(finding)]
fn find_applied(
    alloc: Global,
    operation: Operation,
    args: &[TExpr],
) -> Result<Option<Outcome>, AllocError>
    ensures { IfOk result (λ o. o ≡ folding.applied operation (exprs_of (map view_expr args.now))) }
{
    if !folds(operation) {
        return Ok(None);
    }
    match args.len() {
        1 => {
            let operand = find(alloc, &args[0])?;
            Ok(with_one(operation, operand))
        }
        2 => {
            let left = find(alloc, &args[0])?;
            let right = find(alloc, &args[1])?;
            with_two(alloc, operation, left, right)
        }
        _ => Ok(None),
    }
}

/// The constant that a typed expression is: none where it isn't constant, or its evaluation would raise.
///
/// # Errors
/// Want of memory.
pub fn fold(alloc: Global, e: &TExpr) -> Result<Option<Constant>, AllocError>
    ensures folded { IfOk result (λ o. o ≡ folding.value_of (view_expr e.now)) }
{
    match find(alloc, e)? {
        Some(Outcome::Gives(constant)) => Ok(Some(constant)),
        _ => Ok(None),
    }
}
