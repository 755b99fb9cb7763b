//! Members of modules.

ghost use Rattle.std.specs.Prelude.{◌≡◌, IfOk, IfErr, map, option_map};
ghost use Rattle.limbo_types.specs.View.{view_ty};
ghost use Rattle.limbo_typed.specs.View.{view_expr, view_optional, view_signature};
ghost use Rattle.limbo_refusals.specs.Refusals as refusals;
ghost use Rattle.limbo_refusals.specs.Refusals.{Refuses, NoneIs};
ghost use Rattle.limbo_context.specs.Context.{named_in};
ghost use Rattle.limbo_context.specs.View.{view_context};
ghost use Rattle.limbo_things.specs.Choosing as choosing;
ghost use Rattle.limbo_things.specs.Things as things;
ghost use Rattle.limbo_things.specs.Things.{MemberIs};
ghost use Rattle.limbo_things.specs.ThingView.{view_thing, view_found};

use crate::naming::declared;
use crate::thing::{Thing, or_clash, some, type_named};
use inf_text::Text;
use limbo_context::Context;
use limbo_refusals::ExprFault;
use limbo_scope::Meaning;
use limbo_typed::{Printed, Signature, TExpr};
use limbo_types::Ty;
use std::alloc::{AllocError, Global};

// The print that stands so many behind the functions of `Sys`.
fn printed_at(behind: usize) -> Option<Printed>
    ensures { result ≡ things.printed_at behind }
{
    if behind == 0 {
        Some(Printed::Print)
    } else if behind == 1 {
        Some(Printed::Fprint)
    } else if behind == 2 {
        Some(Printed::Sprint)
    } else {
        None
    }
}

fn is_number(number: Option<u32>, other: u32) -> bool
    ensures { result ≡ things.is_number number other }
{
    match number {
        Some(number) => number == other,
        None => false,
    }
}

// A print through a value of `Sys`.
fn print_at(
    alloc: Global,
    system: Option<u32>,
    interface: u32,
    behind: usize,
    instance: Box<TExpr>,
) -> Result<Option<Box<Thing>>, AllocError>
    ensures { IfOk result (λ o. view_found o ≡ things.print_at system interface behind (view_expr instance.value)) }
{
    if !is_number(system, interface) {
        return Ok(None);
    }
    match printed_at(behind) {
        Some(printed) => some(alloc, Thing::Print { printed, instance }),
        None => Ok(None),
    }
}

// A function of a module type with these functions.
fn function_among(
    alloc: Global,
    system: Option<u32>,
    interface: u32,
    function: u32,
    functions: &[Signature],
    instance: Box<TExpr>,
) -> Result<Option<Box<Thing>>, AllocError>
    ensures { IfOk result (λ o. view_found o
        ≡ things.function_among system interface function (map view_signature functions.now) (view_expr instance.value)) }
{
    match functions.get(function as usize) {
        Some(_) => some(
            alloc,
            Thing::Member {
                instance,
                interface,
                function,
            },
        ),
        None => print_at(
            alloc,
            system,
            interface,
            function as usize - functions.len(),
            instance,
        ),
    }
}

// A function of a module type, through a value of the module.
fn function_at(
    alloc: Global,
    context: &Context,
    interface: u32,
    function: u32,
    instance: Box<TExpr>,
) -> Result<Option<Box<Thing>>, AllocError>
    ensures { IfOk result (λ o. view_found o
        ≡ things.function_at (view_context context.now) interface function (view_expr instance.value)) }
{
    match context.interfaces.get(interface as usize) {
        Some(of) => function_among(
            alloc,
            context.system,
            interface,
            function,
            &of.functions,
            instance,
        ),
        None => Ok(None),
    }
}

// The same, where there is a value of the module.
#[tactic(auto, using(limbo_typed::proofs::View::the_exprs))]
fn function_through(
    alloc: Global,
    context: &Context,
    interface: u32,
    function: u32,
    through: Option<Box<TExpr>>,
) -> Result<Option<Box<Thing>>, AllocError>
    ensures { IfOk result (λ o. view_found o
        ≡ things.function_through (view_context context.now) interface function (view_optional through)) }
{
    match through {
        Some(instance) => function_at(alloc, context, interface, function, instance),
        None => Ok(None),
    }
}

/// The member of a module type that is meant, through a value of the module, where there is one.
///
/// # Errors
/// Want of memory.
pub(crate) fn export(
    alloc: Global,
    context: &Context,
    interface: u32,
    through: Option<Box<TExpr>>,
    meaning: Meaning,
) -> Result<Option<Box<Thing>>, AllocError>
    ensures { IfOk result (λ o. view_found o
        ≡ things.export (view_context context.now) interface (view_optional through) meaning) }
{
    match meaning {
        Meaning::Function(function) => {
            function_through(alloc, context, interface, function, through)
        }
        _ => declared(alloc, context, meaning),
    }
}

// What a member of a module type means.
fn meaning_of(context: &Context, interface: u32, name: &Text) -> Option<Meaning>
    ensures { result ≡ named_in (view_context context.now).exports interface name.now }
{
    context.exported(interface, name)
}

// The member of this name.
fn exported(
    alloc: Global,
    context: &Context,
    interface: u32,
    through: Option<Box<TExpr>>,
    name: &Text,
) -> Result<Option<Box<Thing>>, AllocError>
    ensures { IfOk result (λ o. view_found o
        ≡ things.exported (view_context context.now) interface (view_optional through) name.now) }
{
    match meaning_of(context, interface, name) {
        Some(meaning) => export(alloc, context, interface, through, meaning),
        None => Ok(None),
    }
}

// The module type that a type is.
#[tactic(auto, using(limbo_types::proofs::View::the_types, crate::proofs::Forms::no_module))]
fn module_of(t: &Ty) -> Option<u32>
    ensures { result ≡ choosing.module_of (view_ty t.now) }
{
    match t {
        Ty::Module(number) => Some(*number),
        _ => None,
    }
}

// The member of the module that a value is of.
#[tactic(auto, using(limbo_typed::proofs::View::the_exprs, crate::proofs::Forms::type_is))]
fn member_of_value(
    alloc: Global,
    context: &Context,
    e: Box<TExpr>,
    name: &Text,
) -> Result<Option<Box<Thing>>, AllocError>
    ensures { IfOk result (λ o. view_found o ≡ choosing.member_of_value (view_context context.now) name.now (view_expr e.value)) }
{
    match module_of(&e.ty) {
        Some(interface) => exported(alloc, context, interface, Some(e), name),
        None => Ok(None),
    }
}

// The member of the module whose name a type is.
#[tactic(auto, using(limbo_typed::proofs::View::the_exprs))]
fn member_of_type(
    alloc: Global,
    context: &Context,
    t: &Ty,
    name: &Text,
) -> Result<Option<Box<Thing>>, AllocError>
    ensures { IfOk result (λ o. view_found o ≡ choosing.member_of_type (view_context context.now) name.now (view_ty t.now)) }
{
    match module_of(t) {
        Some(interface) => exported(alloc, context, interface, None, name),
        None => Ok(None),
    }
}

// The member of what stands before `->`.
fn member_of(
    alloc: Global,
    context: &Context,
    base: Box<Thing>,
    name: &Text,
) -> Result<Option<Box<Thing>>, AllocError>
    ensures { IfOk result (λ o. view_found o ≡ choosing.member_of (view_context context.now) name.now (view_thing base.value)) }
{
    match Box::into_inner(base) {
        Thing::Value(e) => member_of_value(alloc, context, e, name),
        Thing::Type(t) => member_of_type(alloc, context, &t, name),
        _ => Ok(None),
    }
}

/// `base->name`: a member of the module that the base is a value of, or the name of.
///
/// # Errors
/// Refusal 50, and want of memory.
pub fn member(
    alloc: Global,
    context: &Context,
    base: Box<Thing>,
    name: &Text,
) -> Result<Box<Thing>, ExprFault>
    // It is the member of that name.
    ensures found { IfOk result (λ t. MemberIs (view_context context.now) name.now (view_thing base.value) (view_thing t.value)) }
    // Where it is refused, there is none.
    ensures refused { IfErr result (λ f. Refuses f (λ r.
        (r ≡ refusals.Clash (things.type_named (view_thing base.value)) (things.type_named (view_thing base.value)))
        × NoneIs (MemberIs (view_context context.now) name.now (view_thing base.value)))) }
{
    let ty = type_named(alloc, &base)?;
    let found = member_of(alloc, context, base, name)?;
    or_clash(alloc, found, &ty)
}
