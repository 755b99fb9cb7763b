//! Exceptions by their names.

ghost use Rattle.std.specs.Prelude.{◌≡◌, ◌∷◌, List, IfOk, IfErr};
ghost use Rattle.limbo_tree.specs.Stmts as stmts;
ghost use Rattle.limbo_refusals.specs.Refusals as refusals;
ghost use Rattle.limbo_refusals.specs.Refusals.{NoneIs, Refuses};
ghost use Rattle.limbo_causes.specs.Causes.{FailsBy};
ghost use Rattle.limbo_context.specs.View.{view_context, view_body};
ghost use Rattle.limbo_things.specs.Things.{AnException, NameIs, type_named};
ghost use Rattle.limbo_things.specs.ThingView.{view_thing};
ghost use Rattle.limbo_stmt_values.specs.limbo_stating.Handlers.{FailsHandled};

use inf_text::{Span, Text};
use limbo_causes::{Cause, TypingFault};
use limbo_context::{Body, Context};
use limbo_refusals::{ExprFault, clash_of};
use limbo_things::{NameFault, Thing, name};
use limbo_types::Ty;
use std::alloc::Global;

// The refusal of a thing, by the type that it names.
#[tactic(auto, using(limbo_types::proofs::View::the_types, limbo_things::proofs::Forms::type_is))]
fn clash_named(alloc: Global, thing: &Thing) -> ExprFault
    ensures { Refuses result (λ r. r ≡ refusals.Clash (type_named (view_thing thing.now)) (type_named (view_thing thing.now))) }
{
    match thing {
        Thing::Value(e) => clash_of(alloc, &e.ty, &e.ty),
        Thing::Type(t) => clash_of(alloc, t, t),
        _ => clash_of(alloc, &Ty::Nothing, &Ty::Nothing),
    }
}

// The number of the exception that a thing is, or the refusal of another thing.
fn number_in(alloc: Global, thing: &Thing) -> Result<u32, ExprFault>
    ensures found { IfOk result (λ i. view_thing thing.now ≡ AnException i) }
    ensures another { IfErr result (λ _. NoneIs (λ i. view_thing thing.now ≡ AnException i)) }
    ensures refused { IfErr result (λ f. Refuses f
        (λ r. r ≡ refusals.Clash (type_named (view_thing thing.now)) (type_named (view_thing thing.now)))) }
{
    match thing {
        Thing::Exception(number) => Ok(*number),
        _ => Err(clash_named(alloc, thing)),
    }
}

/// The number of the declared exception that a name is.
pub(crate) fn exception_named(
    alloc: Global,
    context: &Context,
    body: &Body,
    text: &Text,
    at: Span,
) -> Result<u32, TypingFault>
    ensures found { IfOk result (λ i. NameIs (view_context context.now) (view_body body.now) text.now (AnException i)) }
    ensures refused { IfErr result (λ f. FailsBy f.cause (λ k. (rest : List stmts.HandlerPattern)
        → FailsHandled (view_context context.now) (view_body body.now) (stmts.Declared text.now ∷ rest) k)) }
{
    match name(alloc, context, body, text) {
        Ok(thing) => match number_in(alloc, &thing) {
            Ok(number) => Ok(number),
            Err(fault) => Err(TypingFault::refused(fault, at)),
        },
        Err(NameFault::NoMemory) => Err(TypingFault::no_memory()),
        Err(NameFault::Unknown) => Err(TypingFault {
            cause: Cause::Unknown,
            at,
        }),
        Err(NameFault::Nothing) => Err(TypingFault::refused(
            clash_of(alloc, &Ty::Nothing, &Ty::Nothing),
            at,
        )),
    }
}
