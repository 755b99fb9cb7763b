//! What functions take and answer.

ghost use Rattle.std.specs.Prelude.{◌≡◌, ◌++◌, ◌∷◌, [], List, map, IfOk, IfErr, OnOk};
ghost use Rattle.limbo_tree.specs.Types as written;
ghost use Rattle.limbo_tree.specs.View as source;
ghost use Rattle.limbo_types.specs.View.{view_ty, view_fn};
ghost use Rattle.limbo_refusals.specs.Refusals.{ModuleValue};
ghost use Rattle.limbo_allowed.specs.Allowed.{IsUserModule};
ghost use Rattle.limbo_causes.specs.Causes as causes;
ghost use Rattle.limbo_causes.specs.Causes.{FailsBy};
ghost use Rattle.limbo_written.specs.Written.{FailsAsType};
ghost use Rattle.limbo_context.specs.View.{view_context, view_body};
ghost use Rattle.limbo_locals.specs.limbo_local.Local.{argument_types, ArePermitted, IsAnswer, IsHeader};
ghost use Rattle.limbo_locals.specs.limbo_local.Failing.{FailsTypes, FailsHeader};
ghost use Rattle.limbo_members.specs.Written.{of_each, FailsAnswer};

use inf_text::Span;
use limbo_allowed::is_user_module;
use limbo_causes::TypingFault;
use limbo_context::{Body, Context};
use limbo_refusals::ExprFault;
use limbo_tree::{FnType, Name, Param, TypeTree, span_of_type};
use limbo_types::{FnTy, Ty, copy};
use limbo_written::type_of_values;
use std::alloc::Global;

// A type more, as it is written.
fn push_type(
    alloc: Global,
    context: &Context,
    body: &Body,
    of: &TypeTree,
    types: &mut Vec<Ty>,
) -> Result<(), TypingFault>
    ensures pushed { OnOk result ((ts : List written.Ty)
        → ArePermitted (view_context context.now) (view_body body.now) ts (map view_ty types.old.items)
        → ArePermitted (view_context context.now) (view_body body.now) (ts ++ source.view_type of.now ∷ [])
        (map view_ty types.new.items)) }
    ensures refused { IfErr result (λ f. FailsBy f.cause
        (FailsAsType (view_context context.now) (view_body body.now) (source.view_type of.now))) }
{
    match type_of_values(alloc, context, body, of) {
        Err(fault) => Err(fault),
        Ok(t) => {
            types.push(copy(alloc, &t)?)?;
            Ok(())
        }
    }
}

// The same once for each name.
fn push_each(
    alloc: Global,
    context: &Context,
    body: &Body,
    of: &TypeTree,
    names: &[Option<Name>],
    types: &mut Vec<Ty>,
) -> Result<(), TypingFault>
    ensures pushed { OnOk result ((ts : List written.Ty)
        → ArePermitted (view_context context.now) (view_body body.now) ts (map view_ty types.old.items)
        → ArePermitted (view_context context.now) (view_body body.now)
        (ts ++ of_each (map source.name_of names.now) (source.view_type of.now)) (map view_ty types.new.items)) }
    ensures refused { IfErr result (λ f. FailsBy f.cause (FailsTypes (view_context context.now) (view_body body.now)
        (of_each (map source.name_of names.now) (source.view_type of.now)))) }
{
    for _name in names {
        match push_type(alloc, context, body, of, types) {
            Ok(()) => {}
            Err(fault) => return Err(fault),
        }
    }
    Ok(())
}

// The types of the arguments, in order.
fn arguments(
    alloc: Global,
    context: &Context,
    body: &Body,
    params: &[Param],
) -> Result<Vec<Ty>, TypingFault>
    ensures means { IfOk result (λ ts. ArePermitted (view_context context.now) (view_body body.now)
        (argument_types (map source.view_param params.now)) (map view_ty ts.items)) }
    ensures refused { IfErr result (λ f. FailsBy f.cause (FailsTypes (view_context context.now) (view_body body.now)
        (argument_types (map source.view_param params.now)))) }
{
    let mut types = Vec::new(alloc);
    for param in params {
        match push_each(alloc, context, body, &param.of, &param.names, &mut types) {
            Ok(()) => {}
            Err(fault) => return Err(fault),
        }
    }
    Ok(types)
}

// A type that an answer may have.
fn answered(alloc: Global, context: &Context, t: &Ty, at: Span) -> Result<Ty, TypingFault>
    ensures same { IfOk result (λ u. view_ty u ≡ view_ty t.now) }
    ensures permitted { IfOk result (λ _. IsUserModule context.now.system (view_ty t.now) → ⊥) }
    ensures refused { IfErr result (λ f. FailsBy f.cause
        (λ k. (k ≡ causes.Refused ModuleValue) × IsUserModule context.now.system (view_ty t.now))) }
{
    if is_user_module(context.system, t) {
        Err(TypingFault::refused(ExprFault::ModuleValue, at))
    } else {
        Ok(copy(alloc, t)?)
    }
}

// The type of the answer.
#[tactic(auto, using(limbo_types::proofs::View::the_types))]
fn answer(
    alloc: Global,
    context: &Context,
    body: &Body,
    of: &Option<Box<TypeTree>>,
) -> Result<Ty, TypingFault>
    ensures means { IfOk result (λ u. IsAnswer (view_context context.now) (view_body body.now) (source.view_boxed_type of.now)
        (view_ty u)) }
    ensures refused { IfErr result (λ f. FailsBy f.cause
        (FailsAnswer (view_context context.now) (view_body body.now) (source.view_boxed_type of.now))) }
{
    match of {
        None => Ok(Ty::Nothing),
        Some(t) => match type_of_values(alloc, context, body, t) {
            Err(fault) => Err(fault),
            Ok(u) => answered(alloc, context, &u, span_of_type(t)),
        },
    }
}

/// What a function takes and answers, as its declaration writes it where a body has come to.
///
/// # Errors
/// Those of the types of its arguments and of its answer; 53 where it would answer a value of a user's module.
pub fn header(
    alloc: Global,
    context: &Context,
    body: &Body,
    f: &FnType,
) -> Result<FnTy, TypingFault>
    ensures means { IfOk result (λ h. IsHeader (view_context context.now) (view_body body.now) (source.view_fn f.now) (view_fn h)) }
    ensures refused { IfErr result (λ e. FailsBy e.cause
        (FailsHeader (view_context context.now) (view_body body.now) (source.view_fn f.now))) }
{
    match arguments(alloc, context, body, &f.params) {
        Err(fault) => Err(fault),
        Ok(args) => match answer(alloc, context, body, &f.answer) {
            Err(fault) => Err(fault),
            Ok(answer) => Ok(FnTy { args, answer }),
        },
    }
}
