//! Names, and what stands behind `->` and `.`.

ghost use Rattle.std.specs.Prelude.{◌≡◌, IfOk, IfErr};
ghost use Rattle.limbo_types.specs.Types.{Module};
ghost use Rattle.limbo_types.specs.View.{view_ty};
ghost use Rattle.limbo_tree.specs.Exprs as tree;
ghost use Rattle.limbo_tree.specs.View as source;
ghost use Rattle.limbo_refusals.specs.Refusals.{Refuses, Clash, NoneIs};
ghost use Rattle.limbo_causes.specs.Causes.{FailsBy};
ghost use Rattle.limbo_context.specs.View.{view_context, view_body};
ghost use Rattle.limbo_things.specs.Things.{AType, NameIs, MemberIs, PartIs, type_named};
ghost use Rattle.limbo_things.specs.ThingView.{view_thing};
ghost use Rattle.limbo_typing.specs.Typing.{Denotes};
ghost use Rattle.limbo_exprs.specs.Parts.{module_in, module_named_by};
ghost use Rattle.limbo_typing.specs.Failing.{unfit, FailsName, FailsModule, FailsThing};

use crate::valuing::value;
use inf_text::{Span, Text};
use limbo_causes::{Cause, TypingFault};
use limbo_context::{Body, Context};
use limbo_refusals::{ExprFault, clash_of};
use limbo_things::{NameFault, Thing, member, name, part};
use limbo_tree::Expr;
use limbo_types::Ty;
use std::alloc::Global;

/// What a name is where it stands.
pub(crate) fn named(
    alloc: Global,
    context: &Context,
    body: &Body,
    text: &Text,
    at: Span,
) -> Result<Box<Thing>, TypingFault>
    ensures found { IfOk result (λ t. NameIs (view_context context.now) (view_body body.now) text.now (view_thing t.value)) }
    ensures refused { IfErr result (λ f. FailsBy f.cause (FailsName (view_context context.now) (view_body body.now) text.now)) }
{
    match name(alloc, context, body, text) {
        Ok(thing) => Ok(thing),
        Err(NameFault::NoMemory) => Err(TypingFault::no_memory()),
        Err(NameFault::Unknown) => Err(TypingFault {
            cause: Cause::Unknown,
            at,
        }),
        Err(NameFault::Nothing) => Err(TypingFault::refused(
            clash_of(alloc, &Ty::Nothing, &Ty::Nothing),
            at,
        )),
    }
}

// The number of the module type that a type is.
#[tactic(auto, using(limbo_types::proofs::View::the_types, crate::proofs::Tested::no_module_type))]
fn module_number(t: &Ty) -> Option<u32>
    ensures { result ≡ module_in (view_ty t.now) }
{
    match t {
        Ty::Module(number) => Some(*number),
        _ => None,
    }
}

// The number of the module type whose name a thing is.
fn module_of(thing: &Thing) -> Option<u32>
    ensures { result ≡ module_named_by (view_thing thing.now) }
{
    match thing {
        Thing::Type(t) => module_number(t),
        _ => None,
    }
}

// The refusal of a thing, by the type that it names.
#[tactic(auto, using(limbo_types::proofs::View::the_types, limbo_things::proofs::Forms::type_is))]
fn clash_named(alloc: Global, thing: &Thing) -> ExprFault
    ensures { Refuses result (λ r. r ≡ Clash (type_named (view_thing thing.now)) (type_named (view_thing thing.now))) }
{
    match thing {
        Thing::Value(e) => clash_of(alloc, &e.ty, &e.ty),
        Thing::Type(t) => clash_of(alloc, t, t),
        _ => clash_of(alloc, &Ty::Nothing, &Ty::Nothing),
    }
}

// The same at a place.
fn no_module(alloc: Global, thing: &Thing, at: Span) -> TypingFault
    ensures { FailsBy result.cause (λ k. k ≡ unfit (view_thing thing.now)) }
{
    TypingFault::refused(clash_named(alloc, thing), at)
}

/// The module type that a name names.
pub(crate) fn module_named(
    alloc: Global,
    context: &Context,
    body: &Body,
    text: &Text,
    at: Span,
) -> Result<u32, TypingFault>
    ensures found { IfOk result (λ i. NameIs (view_context context.now) (view_body body.now) text.now (AType (Module i))) }
    ensures refused { IfErr result (λ f. FailsBy f.cause (FailsModule (view_context context.now) (view_body body.now) text.now)) }
{
    match named(alloc, context, body, text, at) {
        Err(fault) => Err(fault),
        Ok(thing) => match module_of(&thing) {
            Some(number) => Ok(number),
            None => Err(no_module(alloc, &thing, at)),
        },
    }
}

// The member of what stands before `->`.
fn member_in(
    alloc: Global,
    context: &Context,
    base: Box<Thing>,
    text: &Text,
    at: Span,
) -> Result<Box<Thing>, TypingFault>
    ensures found { IfOk result (λ t. MemberIs (view_context context.now) text.now (view_thing base.value) (view_thing t.value)) }
    ensures refused { IfErr result (λ f. FailsBy f.cause (λ k.
        (k ≡ unfit (view_thing base.value)) × NoneIs (MemberIs (view_context context.now) text.now (view_thing base.value)))) }
{
    match member(alloc, context, base, text) {
        Ok(thing) => Ok(thing),
        Err(fault) => Err(TypingFault::refused(fault, at)),
    }
}

// The part of what stands before `.`.
fn part_in(
    alloc: Global,
    context: &Context,
    base: Box<Thing>,
    text: &Text,
    at: Span,
) -> Result<Box<Thing>, TypingFault>
    ensures found { IfOk result (λ t. PartIs (view_context context.now) text.now (view_thing base.value) (view_thing t.value)) }
    ensures refused { IfErr result (λ f. FailsBy f.cause (λ k.
        (k ≡ unfit (view_thing base.value)) × NoneIs (PartIs (view_context context.now) text.now (view_thing base.value)))) }
{
    match part(alloc, context, base, text) {
        Ok(thing) => Ok(thing),
        Err(fault) => Err(TypingFault::refused(fault, at)),
    }
}

/// What an expression is where it may be a name, or stand behind one.
///
/// # Errors
/// Those of its parts, and 50 where there is no such member or part.
#[cycle(exprs)]
pub fn denote(
    alloc: Global,
    context: &Context,
    body: &mut Body,
    e: &Expr,
) -> Result<Box<Thing>, TypingFault>
    ensures typed { IfOk result (λ t.
        Denotes (view_context context.now) (view_body body.old) (source.view_expr e.now) (view_thing t.value) (view_body body.new)) }
    ensures refused { IfErr result (λ f. FailsBy f.cause
        (FailsThing (view_context context.now) (view_body body.old) (source.view_expr e.now))) }
{
    match e {
        Expr::Name { name, span } => named(alloc, context, body, name, *span),
        Expr::Arrow { base, name, span } => {
            member_of(alloc, context, body, base, &name.text, *span)
        }
        Expr::Dot { base, name, span } => part_of(alloc, context, body, base, &name.text, *span),
        _ => match value(alloc, context, body, e) {
            Ok(x) => Ok(Box::new(alloc, Thing::Value(x))?),
            Err(fault) => Err(fault),
        },
    }
}

/// `base->name`
#[cycle(exprs)]
pub(crate) fn member_of(
    alloc: Global,
    context: &Context,
    body: &mut Body,
    base: &Expr,
    name: &Text,
    at: Span,
) -> Result<Box<Thing>, TypingFault>
    ensures typed { IfOk result (λ t. Denotes (view_context context.now) (view_body body.old)
        (tree.Arrow (source.view_expr base.now) name.now) (view_thing t.value) (view_body body.new)) }
    ensures refused { IfErr result (λ f. FailsBy f.cause
        (FailsThing (view_context context.now) (view_body body.old) (tree.Arrow (source.view_expr base.now) name.now))) }
{
    match denote(alloc, context, body, base) {
        Ok(thing) => member_in(alloc, context, thing, name, at),
        Err(fault) => Err(fault),
    }
}

/// `base.name`
#[cycle(exprs)]
pub(crate) fn part_of(
    alloc: Global,
    context: &Context,
    body: &mut Body,
    base: &Expr,
    name: &Text,
    at: Span,
) -> Result<Box<Thing>, TypingFault>
    ensures typed { IfOk result (λ t. Denotes (view_context context.now) (view_body body.old)
        (tree.Dot (source.view_expr base.now) name.now) (view_thing t.value) (view_body body.new)) }
    ensures refused { IfErr result (λ f. FailsBy f.cause
        (FailsThing (view_context context.now) (view_body body.old) (tree.Dot (source.view_expr base.now) name.now))) }
{
    match denote(alloc, context, body, base) {
        Ok(thing) => part_in(alloc, context, thing, name, at),
        Err(fault) => Err(fault),
    }
}
