//! What ends the typing of an expression: its refusals at their place, and what may stand anywhere.

ghost use Rattle.std.specs.Prelude.{◌≡◌, ◌≢◌, Ok, Err, IfOk, IfErr};
ghost use Rattle.limbo_types.specs.Types.{Nothing};
ghost use Rattle.limbo_typed.specs.View.{view_expr};
ghost use Rattle.limbo_typed.specs.Sound.{type_of, IsSettled};
ghost use Rattle.limbo_refusals.specs.Refusals.{NoneIs};
ghost use Rattle.limbo_causes.specs.Causes as causes;
ghost use Rattle.limbo_causes.specs.Causes.{FailsBy, ByRefusal};
ghost use Rattle.limbo_causes.specs.declared.fault.Cause.TheVariants.{Refused};
ghost use Rattle.limbo_context.specs.View.{view_context};
ghost use Rattle.limbo_permits.specs.Permits.{IsPermitted, Forbids};
ghost use Rattle.limbo_things.specs.Things.{AValue};
ghost use Rattle.limbo_things.specs.ThingView.{view_thing};
ghost use Rattle.limbo_typing.specs.limbo_value_forms.Forms.{itself};
ghost use Rattle.limbo_typing.specs.Failing.{unfit};

use inf_text::Span;
use limbo_causes::TypingFault;
use limbo_context::Context;
use limbo_permits::{has_answer, is_settled, permit};
use limbo_refusals::{ExprFault, clash_of};
use limbo_things::{Thing, value};
use limbo_typed::TExpr;
use limbo_types::Ty;
use std::alloc::Global;

/// What typed parts come to, with the place of a refusal.
pub(crate) fn placed(
    outcome: Result<Box<TExpr>, ExprFault>,
    at: Span,
) -> Result<Box<TExpr>, TypingFault>
    ensures typed { IfOk result (λ z. outcome ≡ Ok z) }
    ensures refused { IfErr result (λ f. (g : ExprFault) × (outcome ≡ Err g) × (f.cause ≡ Refused g)) }
{
    match outcome {
        Ok(z) => Ok(z),
        Err(fault) => Err(TypingFault::refused(fault, at)),
    }
}

/// A typed tree, if it may stand anywhere.
pub(crate) fn permitted(
    alloc: Global,
    context: &Context,
    x: Box<TExpr>,
    at: Span,
) -> Result<Box<TExpr>, TypingFault>
    ensures same { IfOk result (λ y. y ≡ x) }
    ensures permitted { IfOk result (λ _. IsPermitted (view_context context.now) (view_expr x.value)) }
    ensures refused { IfErr result (λ f. FailsBy f.cause (ByRefusal (Forbids (view_context context.now) (view_expr x.value)))) }
{
    match permit(alloc, context, &x) {
        Ok(()) => Ok(x),
        Err(fault) => Err(TypingFault::refused(fault, at)),
    }
}

/// A typed tree, if it has a value.
pub(crate) fn answered(alloc: Global, x: Box<TExpr>, at: Span) -> Result<Box<TExpr>, TypingFault>
    ensures same { IfOk result (λ y. y ≡ x) }
    ensures answers { IfOk result (λ _. type_of (view_expr x.value) ≢ Nothing) }
    ensures refused { IfErr result (λ f. FailsBy f.cause (λ k. (k ≡ causes.nothing) × (type_of (view_expr x.value) ≡ Nothing))) }
{
    if has_answer(&x) {
        Ok(x)
    } else {
        Err(TypingFault::refused(clash_of(alloc, &Ty::Nothing, &Ty::Nothing), at))
    }
}

/// The value that a thing is.
pub(crate) fn value_of(
    alloc: Global,
    thing: Box<Thing>,
    at: Span,
) -> Result<Box<TExpr>, TypingFault>
    ensures typed { IfOk result (λ x. view_thing thing.value ≡ AValue (view_expr x.value)) }
    ensures refused { IfErr result (λ f. FailsBy f.cause
        (λ k. (k ≡ unfit (view_thing thing.value)) × NoneIs (λ x. view_thing thing.value ≡ AValue x))) }
{
    match value(alloc, thing) {
        Ok(x) => Ok(x),
        Err(fault) => Err(TypingFault::refused(fault, at)),
    }
}

/// That a value's type is settled, as what is declared by it needs.
pub(crate) fn settled(alloc: Global, x: &TExpr, at: Span) -> Result<(), TypingFault>
    ensures settled { IfOk result (λ _. IsSettled (type_of (view_expr x.now))) }
    ensures refused { IfErr result (λ f. FailsBy f.cause
        (λ k. (k ≡ causes.Refused (itself (view_expr x.now))) × (IsSettled (type_of (view_expr x.now)) → ⊥))) }
{
    if is_settled(x) {
        Ok(())
    } else {
        Err(TypingFault::refused(clash_of(alloc, &x.ty, &x.ty), at))
    }
}
