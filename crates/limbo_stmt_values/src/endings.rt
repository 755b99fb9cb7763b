//! What a statement asks of a typed expression.

ghost use Rattle.std.specs.Prelude.{◌≡◌, ◌≢◌, ◌↔◌, true, IsTrue, IfOk, IfErr};
ghost use Rattle.limbo_types.specs.Types.{Int, Chars, Nothing};
ghost use Rattle.limbo_types.specs.View.{view_ty};
ghost use Rattle.limbo_typed.specs.View.{view_expr, view_node};
ghost use Rattle.limbo_typed.specs.Typed.{Of};
ghost use Rattle.limbo_typed.specs.Sound.{type_of, IsSettled, is_call};
ghost use Rattle.limbo_refusals.specs.Refusals.{Clash, NoneIs};
ghost use Rattle.limbo_arguments.specs.Failing.{FailsAt};
ghost use Rattle.limbo_standing.specs.Standing.{Settles};
ghost use Rattle.limbo_causes.specs.Causes as causes;
ghost use Rattle.limbo_causes.specs.Causes.{FailsBy, ByRefusal};
ghost use Rattle.limbo_exprs.specs.limbo_value_forms.Forms.{itself};
ghost use Rattle.limbo_stating.specs.Cases.{IsChosenFrom};
ghost use Rattle.limbo_stmt_values.specs.Choosing.{IsChoice};

use inf_text::Span;
use limbo_arguments::settle_or_clash;
use limbo_causes::TypingFault;
use limbo_forms::is_int;
use limbo_permits::{has_answer, is_settled};
use limbo_refusals::clash_of;
use limbo_standing::settle;
use limbo_typed::{TExpr, TNode};
use limbo_types::Ty;
use std::alloc::Global;

// The type of an expression doesn't fit, beside another.
pub(crate) fn clash(alloc: Global, x: &TExpr, other: &Ty, at: Span) -> TypingFault
    ensures { FailsBy result.cause (λ k. k ≡ causes.Refused (Clash (type_of (view_expr x.now)) (view_ty other.now))) }
{
    TypingFault::refused(clash_of(alloc, &x.ty, other), at)
}

// The same beside itself.
fn misfit(alloc: Global, x: &TExpr, at: Span) -> TypingFault
    ensures { FailsBy result.cause (λ k. k ≡ causes.Refused (itself (view_expr x.now))) }
{
    clash(alloc, x, &x.ty, at)
}

/// A typed tree of which no `nil` is open.
pub(crate) fn settled(alloc: Global, x: Box<TExpr>, at: Span) -> Result<Box<TExpr>, TypingFault>
    ensures same { IfOk result (λ y. y ≡ x) }
    ensures settled { IfOk result (λ _. IsSettled (type_of (view_expr x.value))) }
    ensures refused { IfErr result (λ f. FailsBy f.cause
        (λ k. (k ≡ causes.Refused (itself (view_expr x.value))) × (IsSettled (type_of (view_expr x.value)) → ⊥))) }
{
    if is_settled(&x) {
        Ok(x)
    } else {
        Err(misfit(alloc, &x, at))
    }
}

// Whether an expression is an int.
fn has_int(x: &TExpr) -> bool
    ensures { IsTrue result ↔ (type_of (view_expr x.now) ≡ Int) }
{
    is_int(&x.ty)
}

/// A typed tree that is an int.
pub(crate) fn int(alloc: Global, x: Box<TExpr>, at: Span) -> Result<Box<TExpr>, TypingFault>
    ensures same { IfOk result (λ y. y ≡ x) }
    ensures int { IfOk result (λ _. type_of (view_expr x.value) ≡ Int) }
    ensures refused { IfErr result (λ f. FailsBy f.cause
        (λ k. (k ≡ causes.Refused (Clash (type_of (view_expr x.value)) Int)) × (type_of (view_expr x.value) ≢ Int))) }
{
    if has_int(&x) {
        Ok(x)
    } else {
        Err(clash(alloc, &x, &Ty::Int, at))
    }
}

// How a `case` takes an expression.
#[derive(Clone, Copy)]
enum Choice {
    AsItIs,
    AsString,
    Not,
}

// How a `case` takes an expression of a type.
fn choice_of(t: &Ty) -> Choice
    ensures { IsChoice (view_ty t.now) result }
{
    match t {
        Ty::Int => Choice::AsItIs,
        Ty::Big => Choice::AsItIs,
        Ty::Chars => Choice::AsItIs,
        Ty::Nil => Choice::AsString,
        _ => Choice::Not,
    }
}

// An open `nil` as a string.
fn as_string(alloc: Global, mut x: Box<TExpr>, at: Span) -> Result<Box<TExpr>, TypingFault>
    ensures settled { IfOk result (λ y. Settles Chars (view_expr x.value) (view_expr y.value)) }
    ensures refused { IfErr result (λ f. FailsBy f.cause
        (λ k. (k ≡ causes.Refused (itself (view_expr x.value))) × NoneIs (Settles Chars (view_expr x.value)))) }
{
    let fault = misfit(alloc, &x, at);
    if settle(alloc, &mut x, &Ty::Chars)? {
        Ok(x)
    } else {
        Err(fault)
    }
}

/// An int, a big or a string, for which an open `nil` stands too.
pub(crate) fn chosen(alloc: Global, x: Box<TExpr>, at: Span) -> Result<Box<TExpr>, TypingFault>
    ensures chosen { IfOk result (λ y. IsChosenFrom (view_expr x.value) (view_expr y.value)) }
    ensures refused { IfErr result (λ f. FailsBy f.cause
        (λ k. (k ≡ causes.Refused (itself (view_expr x.value))) × NoneIs (IsChosenFrom (view_expr x.value)))) }
{
    match choice_of(&x.ty) {
        Choice::AsItIs => Ok(x),
        Choice::AsString => as_string(alloc, x, at),
        Choice::Not => Err(misfit(alloc, &x, at)),
    }
}

// Whether a node is a call, whatever its type is.
#[tactic(auto, using(limbo_typed::proofs::View::the_exprs, crate::proofs::Nodes::not_call))]
fn calls(node: &TNode) -> bool
    ensures { result ≡ is_call (Of Nothing (view_node node.now)) }
{
    match node {
        TNode::Call { .. } => true,
        TNode::CallThrough { .. } => true,
        _ => false,
    }
}

// Whether an expression is a call without an answer.
fn is_unanswered(x: &TExpr) -> bool
    ensures { IsTrue result ↔ ((is_call (view_expr x.now) ≡ true) × (type_of (view_expr x.now) ≡ Nothing)) }
{
    !has_answer(x) && calls(&x.node)
}

/// A call without an answer.
pub(crate) fn unanswered(alloc: Global, x: Box<TExpr>, at: Span) -> Result<Box<TExpr>, TypingFault>
    ensures same { IfOk result (λ y. y ≡ x) }
    ensures call { IfOk result (λ _. is_call (view_expr x.value) ≡ true) }
    ensures no_answer { IfOk result (λ _. type_of (view_expr x.value) ≡ Nothing) }
    ensures refused { IfErr result (λ f. FailsBy f.cause
        (λ k. (k ≡ causes.Refused (Clash (type_of (view_expr x.value)) Nothing))
        × ((is_call (view_expr x.value) ≡ true) × (type_of (view_expr x.value) ≡ Nothing) → ⊥))) }
{
    if is_unanswered(&x) {
        Ok(x)
    } else {
        Err(clash(alloc, &x, &Ty::Nothing, at))
    }
}

/// A value where a type is asked for.
pub(crate) fn answer(
    alloc: Global,
    mut x: Box<TExpr>,
    asked: &Ty,
    at: Span,
) -> Result<Box<TExpr>, TypingFault>
    ensures settled { IfOk result (λ y. Settles (view_ty asked.now) (view_expr x.value) (view_expr y.value)) }
    ensures refused { IfErr result (λ f. FailsBy f.cause (ByRefusal (FailsAt (view_ty asked.now) (view_expr x.value)))) }
{
    match settle_or_clash(alloc, &mut x, asked) {
        Ok(()) => Ok(x),
        Err(fault) => Err(TypingFault::refused(fault, at)),
    }
}
