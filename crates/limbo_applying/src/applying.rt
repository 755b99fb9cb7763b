//! Functions, adts and variants with their arguments.

ghost use Rattle.std.specs.Prelude.{◌≡◌, IfOk, IfErr};
ghost use Rattle.limbo_types.specs.View.{view_ty};
ghost use Rattle.limbo_typed.specs.Typed.{MoreExprs};
ghost use Rattle.limbo_typed.specs.View.{view_expr, view_exprs, view_optional};
ghost use Rattle.limbo_refusals.specs.Refusals.{Refuses, NoneIs};
ghost use Rattle.limbo_context.specs.View.{view_context};
ghost use Rattle.limbo_things.specs.Things.{AType};
ghost use Rattle.limbo_things.specs.ThingView.{view_thing};
ghost use Rattle.limbo_applying.specs.Applying as applying;
ghost use Rattle.limbo_applying.specs.Applying.{Applies, CallsFunction, CallsMember};
ghost use Rattle.limbo_applying.specs.Refusing.{RefusesApply, RefusesFunction, RefusesMember};

use limbo_calls::{call, call_through, construct};
use limbo_context::Context;
use limbo_refusals::{ExprFault, clash_of};
use limbo_things::Thing;
use limbo_typed::TExpr;
use limbo_types::Ty;
use std::alloc::{AllocError, Global};

// An expression, and others behind it.
#[tactic(auto, using(limbo_typed::proofs::View::the_exprs))]
fn put_before(
    alloc: Global,
    first: Box<TExpr>,
    mut others: Vec<TExpr>,
) -> Result<Vec<TExpr>, AllocError>
    ensures { IfOk result (λ es. view_exprs es.items ≡ MoreExprs (view_expr first.value) (view_exprs others.items)) }
{
    let mut all = Vec::new(alloc);
    all.reserve(1)?;
    all.push_reserved(Box::into_inner(first));
    all.append(&mut others)?;
    Ok(all)
}

// The arguments, with the object in front, where the function takes `self`.
#[tactic(auto, using(limbo_typed::proofs::View::the_exprs))]
fn with_object(
    alloc: Global,
    takes_self: bool,
    object: Option<Box<TExpr>>,
    args: Vec<TExpr>,
) -> Result<Vec<TExpr>, AllocError>
    ensures { IfOk result (λ es. view_exprs es.items ≡ applying.with_object takes_self (view_optional object) (view_exprs args.items)) }
{
    if !takes_self {
        return Ok(args);
    }
    match object {
        Some(object) => put_before(alloc, object, args),
        None => Ok(args),
    }
}

// A call of a function of the module, with the object before its `.`, where there is one.
#[tactic(auto, using(limbo_types::proofs::View::the_types))]
fn call_function(
    alloc: Global,
    context: &Context,
    function: u32,
    object: Option<Box<TExpr>>,
    args: Vec<TExpr>,
) -> Result<Box<TExpr>, ExprFault>
    ensures typed { IfOk result (λ e. CallsFunction (view_context context.now) function (view_optional object) (view_exprs args.items)
        (view_expr e.value)) }
    ensures refused { IfErr result (λ f. Refuses f
        (λ r. RefusesFunction (view_context context.now) function (view_optional object) (view_exprs args.items) r
        × NoneIs (CallsFunction (view_context context.now) function (view_optional object) (view_exprs args.items)))) }
{
    match context.functions.get(function as usize) {
        None => Err(clash_of(alloc, &Ty::Nothing, &Ty::Nothing)),
        Some(callee) => {
            let args = with_object(alloc, callee.takes_self, object, args)?;
            call(alloc, function, &callee.of, args)
        }
    }
}

// A call of a function of a module's type, through a value of the module.
#[tactic(auto, using(limbo_types::proofs::View::the_types))]
fn call_member(
    alloc: Global,
    context: &Context,
    instance: Box<TExpr>,
    interface: u32,
    function: u32,
    args: Vec<TExpr>,
) -> Result<Box<TExpr>, ExprFault>
    ensures typed { IfOk result
        (λ e. CallsMember (view_context context.now) (view_expr instance.value) interface function (view_exprs args.items)
        (view_expr e.value)) }
    ensures refused { IfErr result (λ f. Refuses f
        (λ r. RefusesMember (view_context context.now) (view_expr instance.value) interface function (view_exprs args.items) r
        × NoneIs (CallsMember (view_context context.now) (view_expr instance.value) interface function (view_exprs args.items)))) }
{
    match context.interfaces.get(interface as usize) {
        None => Err(clash_of(alloc, &Ty::Nothing, &Ty::Nothing)),
        Some(of) => match of.functions.get(function as usize) {
            None => Err(clash_of(alloc, &Ty::Nothing, &Ty::Nothing)),
            Some(member) => call_through(
                alloc,
                context.system,
                instance,
                interface,
                function,
                &member.of,
                args,
            ),
        },
    }
}

// A value of the adt whose name a type is.
#[tactic(auto, using(limbo_types::proofs::View::the_types))]
fn construct_of(
    alloc: Global,
    context: &Context,
    t: &Ty,
    args: Vec<TExpr>,
) -> Result<Box<TExpr>, ExprFault>
    ensures typed { IfOk result
        (λ e. Applies (view_context context.now) (AType (view_ty t.now)) (view_exprs args.items) (view_expr e.value)) }
    ensures refused { IfErr result (λ f. Refuses f
        (λ r. RefusesApply (view_context context.now) (AType (view_ty t.now)) (view_exprs args.items) r
        × NoneIs (Applies (view_context context.now) (AType (view_ty t.now)) (view_exprs args.items)))) }
{
    match t {
        Ty::Adt(adt) => construct(alloc, context.adts.defs(), *adt, None, args),
        _ => Err(clash_of(alloc, t, t)),
    }
}

/// `thing(args)`: a call of a function, or a value of an adt or of a variant.
///
/// # Errors
/// Refusals 50 and 53 as of calls, and 50 of what is neither called nor made, with the type that it names; want of memory.
#[tactic(auto, using(limbo_types::proofs::View::the_types))]
pub fn apply(
    alloc: Global,
    context: &Context,
    thing: Box<Thing>,
    args: Vec<TExpr>,
) -> Result<Box<TExpr>, ExprFault>
    // It is the thing applied to them.
    ensures typed { IfOk result
        (λ e. Applies (view_context context.now) (view_thing thing.value) (view_exprs args.items) (view_expr e.value)) }
    // Where it is refused, there is none.
    ensures refused { IfErr result (λ f. Refuses f
        (λ r. RefusesApply (view_context context.now) (view_thing thing.value) (view_exprs args.items) r
        × NoneIs (Applies (view_context context.now) (view_thing thing.value) (view_exprs args.items)))) }
{
    match Box::into_inner(thing) {
        Thing::Function(function) => call_function(alloc, context, function, None, args),
        Thing::Method { function, object } => call_function(alloc, context, function, object, args),
        Thing::Member {
            instance,
            interface,
            function,
        } => call_member(alloc, context, instance, interface, function, args),
        Thing::Type(t) => construct_of(alloc, context, &t, args),
        Thing::Variant { adt, variant } => {
            construct(alloc, context.adts.defs(), adt, Some(variant), args)
        }
        Thing::Value(e) => Err(clash_of(alloc, &e.ty, &e.ty)),
        _ => Err(clash_of(alloc, &Ty::Nothing, &Ty::Nothing)),
    }
}
