//! The forms of one and of two values.

ghost use Rattle.std.specs.Prelude.{◌≡◌, IfOk, IfErr, Some};
ghost use Rattle.limbo_tree.specs.Exprs as tree;
ghost use Rattle.limbo_typed.specs.View.{view_expr};
ghost use Rattle.limbo_refusals.specs.Refusals.{Refuses, NoneIs};
ghost use Rattle.limbo_context.specs.View.{view_context};
ghost use Rattle.limbo_operands.specs.Operands.{one, two};
ghost use Rattle.limbo_typing.specs.limbo_value_forms.Forms.{Forms, RefusesForm, values_in};
ghost use Rattle.limbo_typing.specs.limbo_value_forms.Forms as value_forms;
ghost use Rattle.limbo_typing.specs.Failing.{changed_in};
ghost use Rattle.limbo_exprs.specs.Parts.{with_one, with_two, if_changed};

use limbo_context::Context;
use limbo_places::{index, step};
use limbo_refusals::ExprFault;
use limbo_tree::{AssignOp, BinaryOp, PostfixOp, UnaryOp};
use limbo_typed::{Given, TExpr};
use limbo_typing::limbo_combining::{combine, text_bytes};
use limbo_typing::limbo_value_forms::{before, give};
use std::alloc::Global;

/// What is made of one value.
#[derive(Clone, Copy)]
pub(crate) enum OfOne {
    /// An operator stands before it.
    Before(UnaryOp),
    /// An operator stands behind it.
    Behind(PostfixOp),
    /// `array of byte`: a string's bytes.
    Bytes,
}

/// What is made of two values.
#[derive(Clone, Copy)]
pub(crate) enum OfTwo {
    /// An operator stands between them.
    Between(BinaryOp),
    /// The second is an index into the first.
    Index,
    /// The second goes to the first: it is sent, or assigned with an operator.
    Give(AssignOp),
}

/// Whether the operators that stand before an operand change it.
#[tactic(auto, using(crate::proofs::Tested::changes_before))]
fn changes_before(op: UnaryOp) -> bool
    ensures { (e : tree.Expr) → changed_in (tree.Unary op e) ≡ if_changed result e }
{
    matches!(op, UnaryOp::Increment | UnaryOp::Decrement)
}

/// Whether what is made of a value changes it.
pub(crate) fn changes_one(form: OfOne) -> bool
    ensures { (e : tree.Expr) → changed_in (with_one form e) ≡ if_changed result e }
{
    match form {
        OfOne::Before(op) => changes_before(op),
        OfOne::Behind(_) => true,
        OfOne::Bytes => false,
    }
}

/// Whether an assignment changes its left side by what it holds.
#[tactic(auto, using(crate::proofs::Tested::changes_left))]
fn changes_left(op: AssignOp) -> bool
    ensures { (l r : tree.Expr) → changed_in (tree.Assign op l r) ≡ if_changed result l }
{
    !matches!(op, AssignOp::Assign | AssignOp::Define | AssignOp::Send)
}

/// Whether what is made of two values changes the first.
pub(crate) fn changes_first(form: OfTwo) -> bool
    ensures { (l r : tree.Expr) → changed_in (with_two form l r) ≡ if_changed result l }
{
    match form {
        OfTwo::Give(op) => changes_left(op),
        _ => false,
    }
}

/// What one typed value is made.
///
/// # Errors
/// The refusal of its form, and want of memory.
pub(crate) fn of_one(
    alloc: Global,
    context: &Context,
    form: OfOne,
    x: Box<TExpr>,
) -> Result<Box<TExpr>, ExprFault>
    ensures typed { (e : tree.Expr) → IfOk result (λ z.
        Forms (view_context context.now) (with_one form e) (one (view_expr x.value)) (view_expr z.value)) }
    ensures refused { (e : tree.Expr) → IfErr result (λ f. Refuses f (λ r.
        RefusesForm (view_context context.now) (with_one form e) (one (view_expr x.value)) r
        × NoneIs (Forms (view_context context.now) (with_one form e) (one (view_expr x.value))))) }
{
    match form {
        OfOne::Before(op) => before(alloc, context, op, x),
        OfOne::Behind(op) => step(alloc, op, Given::Old, x),
        OfOne::Bytes => text_bytes(alloc, x),
    }
}

/// What two typed values are made.
///
/// # Errors
/// The refusal of their form, and want of memory.
pub(crate) fn of_two(
    alloc: Global,
    context: &Context,
    form: OfTwo,
    x: Box<TExpr>,
    y: Box<TExpr>,
) -> Result<Box<TExpr>, ExprFault>
    requires values { (l r : tree.Expr) → values_in (with_two form l r) ≡ Some (value_forms.two l r) }
    ensures typed { (l r : tree.Expr) → IfOk result (λ z. Forms (view_context context.now) (with_two form l r)
        (two (view_expr x.value) (view_expr y.value)) (view_expr z.value)) }
    ensures refused { (l r : tree.Expr) → IfErr result (λ f. Refuses f (λ s.
        RefusesForm (view_context context.now) (with_two form l r) (two (view_expr x.value) (view_expr y.value)) s
        × NoneIs (Forms (view_context context.now) (with_two form l r) (two (view_expr x.value) (view_expr y.value))))) }
{
    match form {
        OfTwo::Between(op) => combine(alloc, op, x, y),
        OfTwo::Index => index(alloc, x, y),
        OfTwo::Give(op) => give(alloc, op, x, y),
    }
}
