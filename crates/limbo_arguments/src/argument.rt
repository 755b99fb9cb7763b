//! Values where types are asked for.

ghost use Rattle.std.specs.Prelude.{◌≡◌, IfOk, IfErr, map};
ghost use Rattle.limbo_types.specs.View.{view_ty};
ghost use Rattle.limbo_typed.specs.Typed.{Of};
ghost use Rattle.limbo_typed.specs.View.{view_expr, view_node, view_exprs};
ghost use Rattle.limbo_refusals.specs.Refusals.{Refuses};
ghost use Rattle.limbo_standing.specs.Standing.{Settles, SettleEach, SettleAll};
ghost use Rattle.limbo_arguments.specs.Failing.{FailsAt, FailsEach, FailsAll};

use limbo_refusals::{ExprFault, clash_of};
use limbo_standing::settle;
use limbo_typed::{TExpr, TNode};
use limbo_types::{Ty, copy};
use std::alloc::{AllocError, Global};

/// An expression of a type and a node, in a box of its own.
///
/// # Errors
/// Want of memory.
#[tactic(auto, using(limbo_typed::proofs::View::the_exprs))]
pub fn expr_of(alloc: Global, ty: Ty, node: TNode) -> Result<Box<TExpr>, AllocError>
    ensures { IfOk result (λ e. view_expr e.value ≡ Of (view_ty ty) (view_node node)) }
{
    Ok(Box::new(alloc, TExpr { ty, node })?)
}

/// Lets a value stand where a type is asked for. After an error nothing is said of what is left of it.
///
/// # Errors
/// Its type beside the one that is asked for, where it doesn't stand; want of memory.
pub fn settle_or_clash(alloc: Global, value: &mut TExpr, asked: &Ty) -> Result<(), ExprFault>
    // It is what the value is there.
    ensures settled { IfOk result (λ _. Settles (view_ty asked.now) (view_expr value.old) (view_expr value.new)) }
    // The value is nothing there.
    ensures refused { IfErr result (λ f. Refuses f (FailsAt (view_ty asked.now) (view_expr value.old))) }
{
    let given = copy(alloc, &value.ty)?;
    if settle(alloc, value, asked)? {
        return Ok(());
    }
    Err(clash_of(alloc, &given, asked))
}

/// Lets values stand, each where a type of its own is asked for.
///
/// # Errors
/// The type of the first value that doesn't stand, beside the one that is asked of it; where there are too few values or too many, the
/// type of the whole beside itself; want of memory.
pub fn settle_each(
    alloc: Global,
    mut values: Vec<TExpr>,
    asked: &[Ty],
    whole: &Ty,
) -> Result<Vec<TExpr>, ExprFault>
    // They are what the values are there.
    ensures settled { IfOk result (λ fs. SettleEach (map view_ty asked.now) (view_exprs values.items) (view_exprs fs.items)) }
    // One is nothing there, or there aren't as many.
    ensures refused { IfErr result
        (λ f. Refuses f (FailsEach (view_ty whole.now) (map view_ty asked.now) (view_exprs values.items))) }
{
    let mut rest = asked;
    for value in values.iter_mut() {
        let Some((t, more)) = rest.split_first() else {
            return Err(clash_of(alloc, whole, whole));
        };
        settle_or_clash(alloc, value, t)?;
        rest = more;
    }
    if !rest.is_empty() {
        return Err(clash_of(alloc, whole, whole));
    }
    Ok(values)
}

/// Lets values stand, all where one type is asked for.
///
/// # Errors
/// The type of the first value that doesn't stand, beside the one that is asked for; want of memory.
pub fn settle_all(
    alloc: Global,
    mut values: Vec<TExpr>,
    asked: &Ty,
) -> Result<Vec<TExpr>, ExprFault>
    // They are what the values are there.
    ensures settled { IfOk result (λ fs. SettleAll (view_ty asked.now) (view_exprs values.items) (view_exprs fs.items)) }
    // One is nothing there.
    ensures refused { IfErr result (λ f. Refuses f (FailsAll (view_ty asked.now) (view_exprs values.items))) }
{
    for value in values.iter_mut() {
        settle_or_clash(alloc, value, asked)?;
    }
    Ok(values)
}
