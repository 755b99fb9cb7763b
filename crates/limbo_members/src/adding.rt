//! What members add to an adt.

ghost use Rattle.std.specs.Prelude.{◌≡◌, ◌<◌, ℕ, Bool, length, map, option_map, slice_get, IfOk, IfErr, OnOk};
ghost use Rattle.limbo_tree.specs.Decls as decls;
ghost use Rattle.limbo_tree.specs.View as source;
ghost use Rattle.limbo_tree.specs.View.{names_of};
ghost use Rattle.limbo_scope.specs.declared.meaning.Meaning.TheVariants as meaning;
ghost use Rattle.limbo_scope.specs.Scopes.{declared};
ghost use Rattle.limbo_causes.specs.Causes.{FailsBy};
ghost use Rattle.limbo_context.specs.View.{view_context, view_body};
ghost use Rattle.limbo_members.specs.Adding.{view_given, IsShown, AddsMember, AddsMembers, AddsAdt, FailsMember, FailsMembers};

use crate::fields::variants_of;
use crate::given::{Given, adt_given, fields_given, give_more, nothing_given};
use crate::headers::header;
use crate::opening::open_adt;
use crate::showing::{show_adt, show_names, untold};
use inf_text::Span;
use limbo_causes::{Cause, TypingFault};
use limbo_context::{Body, Context};
use limbo_locals::{Lead, add_constants, add_types};
use limbo_tree::{Expr, FnType, Member, Name, TypeTree, Variant};
use limbo_written::type_of_values;
use std::alloc::Global;

// Fields.
fn add_fields(
    alloc: Global,
    context: &Context,
    body: &Body,
    names: &[Name],
    of: &TypeTree,
) -> Result<Given, TypingFault>
    ensures adds { IfOk result (λ g. (m : Bool) (a : ℕ) → IsShown a (view_context context.now) (view_body body.now)
        → AddsMember m a (decls.VarMember (names_of names.now) (source.view_type of.now)) (view_context context.now) (view_body body.now)
        (view_given g) (view_context context.now) (view_body body.now)) }
    ensures refused { IfErr result (λ f. FailsBy f.cause (λ k. (m : Bool)
        → FailsMember m (decls.VarMember (names_of names.now) (source.view_type of.now))
        (view_context context.now) (view_body body.now) k)) }
{
    match type_of_values(alloc, context, body, of) {
        Err(fault) => Err(fault),
        Ok(t) => Ok(fields_given(alloc, names, &t)?),
    }
}

// Functions, which an adt of a body has only in a module.
fn add_functions(
    alloc: Global,
    context: &Context,
    body: &Body,
    in_module: bool,
    names: &[Name],
    of: &FnType,
    at: Span,
) -> Result<Given, TypingFault>
    ensures adds { IfOk result (λ g. (a : ℕ) → IsShown a (view_context context.now) (view_body body.now)
        → AddsMember in_module a (decls.FnMember (names_of names.now) (source.view_fn of.now)) (view_context context.now)
        (view_body body.now) (view_given g) (view_context context.now) (view_body body.now)) }
    ensures refused { IfErr result (λ f. FailsBy f.cause
        (FailsMember in_module (decls.FnMember (names_of names.now) (source.view_fn of.now)) (view_context context.now)
        (view_body body.now))) }
{
    if !in_module {
        return Err(TypingFault {
            cause: Cause::Unknown,
            at,
        });
    }
    match header(alloc, context, body, of) {
        Err(fault) => Err(fault),
        Ok(_of) => Ok(nothing_given(alloc)),
    }
}

// Constants.
fn add_shown_constants(
    alloc: Global,
    context: &mut Context,
    body: &mut Body,
    adt: u32,
    names: &[Name],
    e: &Expr,
) -> Result<Given, TypingFault>
    requires shown { IsShown adt (view_context context.old) (view_body body.old) }
    ensures adds { IfOk result (λ g. (m : Bool) → AddsMember m adt (decls.ConMember (names_of names.now) (source.view_expr e.now))
        (view_context context.old) (view_body body.old) (view_given g) (view_context context.new) (view_body body.new)) }
    ensures shown { OnOk result (IsShown adt (view_context context.new) (view_body body.new)) }
    ensures refused { IfErr result (λ f. FailsBy f.cause (λ k. (m : Bool)
        → FailsMember m (decls.ConMember (names_of names.now) (source.view_expr e.now))
        (view_context context.old) (view_body body.old) k)) }
{
    let first = context.constants.len();
    match add_constants(alloc, context, body, names, e) {
        Err(fault) => Err(fault),
        Ok(()) => match show_names(&mut context.members, adt, names, Lead::Constant, first) {
            Err(fault) => Err(fault),
            Ok(()) => Ok(nothing_given(alloc)),
        },
    }
}

// Types.
fn add_shown_types(
    alloc: Global,
    context: &mut Context,
    body: &mut Body,
    adt: u32,
    names: &[Name],
    of: &TypeTree,
) -> Result<Given, TypingFault>
    requires shown { IsShown adt (view_context context.old) (view_body body.old) }
    ensures adds { IfOk result (λ g. (m : Bool) → AddsMember m adt (decls.TypeMember (names_of names.now) (source.view_type of.now))
        (view_context context.old) (view_body body.old) (view_given g) (view_context context.new) (view_body body.new)) }
    ensures shown { OnOk result (IsShown adt (view_context context.new) (view_body body.new)) }
    ensures refused { IfErr result (λ f. FailsBy f.cause (λ k. (m : Bool)
        → FailsMember m (decls.TypeMember (names_of names.now) (source.view_type of.now))
        (view_context context.old) (view_body body.old) k)) }
{
    let first = context.types.len();
    match add_types(alloc, context, body, names, of) {
        Err(fault) => Err(fault),
        Ok(()) => match show_names(&mut context.members, adt, names, Lead::Type, first) {
            Err(fault) => Err(fault),
            Ok(()) => Ok(nothing_given(alloc)),
        },
    }
}

// An adt that stands in another.
#[cycle(adding)]
fn add_inner(
    alloc: Global,
    context: &mut Context,
    body: &mut Body,
    adt: u32,
    in_module: bool,
    name: &Name,
    members: &[Member],
    pick: &Option<Vec<Variant>>,
) -> Result<Given, TypingFault>
    requires shown { IsShown adt (view_context context.old) (view_body body.old) }
    ensures adds { IfOk result (λ g. AddsMember in_module adt (decls.AdtMember name.now.text (source.view_members members.now)
        (option_map (λ vs. map source.view_variant vs.items) pick.now)) (view_context context.old) (view_body body.old) (view_given g)
        (view_context context.new) (view_body body.new)) }
    ensures shown { OnOk result (IsShown adt (view_context context.new) (view_body body.new)) }
    ensures refused { IfErr result (λ f. FailsBy f.cause (FailsMember in_module (decls.AdtMember name.now.text
        (source.view_members members.now) (option_map (λ vs. map source.view_variant vs.items) pick.now))
        (view_context context.old) (view_body body.old))) }
{
    let Ok(number) = u32::try_from(context.adts.defs().len()) else {
        return Err(TypingFault::no_memory());
    };
    match add_adt(alloc, context, body, in_module, name, members, pick) {
        Err(fault) => Err(fault),
        Ok(given) => match show_adt(&mut context.members, adt, name, number) {
            Err(fault) => Err(fault),
            Ok(()) => Ok(given),
        },
    }
}

// A member.
#[tactic(auto, using(limbo_tree::proofs::Members::the_members))]
#[cycle(adding)]
fn add_member(
    alloc: Global,
    context: &mut Context,
    body: &mut Body,
    adt: u32,
    in_module: bool,
    member: &Member,
) -> Result<Given, TypingFault>
    requires shown { IsShown adt (view_context context.old) (view_body body.old) }
    ensures adds { IfOk result (λ g. AddsMember in_module adt (source.view_member member.now) (view_context context.old)
        (view_body body.old) (view_given g) (view_context context.new) (view_body body.new)) }
    ensures shown { OnOk result (IsShown adt (view_context context.new) (view_body body.new)) }
    ensures refused { IfErr result (λ f. FailsBy f.cause
        (FailsMember in_module (source.view_member member.now) (view_context context.old) (view_body body.old))) }
{
    match member {
        Member::Var { names, of, .. } => add_fields(alloc, context, body, names, of),
        Member::Function { names, of, span } => {
            add_functions(alloc, context, body, in_module, names, of, *span)
        }
        Member::Con { names, value, .. } => {
            add_shown_constants(alloc, context, body, adt, names, value)
        }
        Member::Type { names, of, .. } => add_shown_types(alloc, context, body, adt, names, of),
        Member::Adt {
            name,
            members,
            pick,
            ..
        } => add_inner(alloc, context, body, adt, in_module, name, members, pick),
    }
}

// The members of an adt.
#[cycle(adding)]
fn add_members(
    alloc: Global,
    context: &mut Context,
    body: &mut Body,
    adt: u32,
    in_module: bool,
    members: &[Member],
) -> Result<Given, TypingFault>
    requires shown { IsShown adt (view_context context.old) (view_body body.old) }
    ensures adds { IfOk result (λ g. AddsMembers in_module adt (source.view_members members.now) (view_context context.old)
        (view_body body.old) (view_given g) (view_context context.new) (view_body body.new)) }
    ensures refused { IfErr result (λ f. FailsBy f.cause
        (FailsMembers in_module adt (source.view_members members.now) (view_context context.old) (view_body body.old))) }
{
    let mut given = nothing_given(alloc);
    for member in members {
        match add_member(alloc, context, body, adt, in_module, member) {
            Ok(more) => give_more(&mut given, more)?,
            Err(fault) => return Err(fault),
        }
    }
    Ok(given)
}

/// An adt, which isn't seen yet behind itself: what its members give, and its variants. Its name is seen to be new before, so that nothing
/// but memory is wanting there.
///
/// # Errors
/// Those of the members and of the fields of the variants.
#[cycle(adding)]
pub(crate) fn add_adt(
    alloc: Global,
    context: &mut Context,
    body: &mut Body,
    in_module: bool,
    name: &Name,
    members: &[Member],
    pick: &Option<Vec<Variant>>,
) -> Result<Given, TypingFault>
    ensures adds { IfOk result (λ g. AddsAdt in_module name.now.text (source.view_members members.now)
        (option_map (λ vs. map source.view_variant vs.items) pick.now) (view_context context.old) (view_body body.old) (view_given g)
        (view_context context.new) (view_body body.new)) }
    ensures rows { OnOk result ((i : ℕ) → i < length (view_context context.old).members
        → slice_get (view_context context.new).members i ≡ slice_get (view_context context.old).members i) }
    ensures scopes { OnOk result (body.new.scopes
        ≡ declared name.now.text (meaning.Adt (length (view_context context.old).adts)) body.old.scopes) }
    ensures refused { IfErr result (λ f. FailsBy f.cause (FailsMember in_module (decls.AdtMember name.now.text
        (source.view_members members.now) (option_map (λ vs. map source.view_variant vs.items) pick.now))
        (view_context context.old) (view_body body.old))) }
{
    let depth = body.scopes.depth();
    prove!(depth > 0);
    match open_adt(alloc, context, body, name, pick) {
        Err(cause) => Err(untold(cause)),
        Ok(number) => match add_members(alloc, context, body, number, in_module, members) {
            Err(fault) => Err(fault),
            Ok(inside) => match variants_of(alloc, context, body, pick) {
                Err(fault) => Err(fault),
                Ok(picks) => {
                    let _left = body.scopes.leave();
                    Ok(adt_given(alloc, name, inside, picks)?)
                }
            },
        },
    }
}
