//! What members add to a module.

ghost use Rattle.std.specs.Prelude.{◌≡◌, ◌∷◌, [], map, option_map, IfErr, OnOk};
ghost use Rattle.limbo_tree.specs.Decls as decls;
ghost use Rattle.limbo_tree.specs.View as source;
ghost use Rattle.limbo_tree.specs.View.{names_of};
ghost use Rattle.limbo_causes.specs.Causes.{FailsBy};
ghost use Rattle.limbo_context.specs.View.{view_context, view_body};
ghost use Rattle.limbo_interfaces.specs.Modules.{IsBegun, AddsMember, AddsMembers, FailsMember, FailsMembers};

use crate::functions::add_functions;
use limbo_causes::TypingFault;
use limbo_context::{Body, Context};
use limbo_locals::{Lead, add_constants, add_types};
use limbo_members::{show_adt, show_names, whole_adt};
use limbo_tree::{Expr, Member, Name, TypeTree, Variant};
use limbo_written::type_of_values;
use std::alloc::Global;

// Variables, of which the type alone is looked at: the module alone that implements it has them.
fn add_variables(
    alloc: Global,
    context: &Context,
    body: &Body,
    interface: u32,
    names: &[Name],
    of: &TypeTree,
) -> Result<(), TypingFault>
    requires begun { IsBegun interface (view_context context.now) (view_body body.now) }
    ensures adds { OnOk result (AddsMember interface (decls.VarMember (names_of names.now) (source.view_type of.now))
        (view_context context.now) (view_body body.now) (view_context context.now) (view_body body.now)) }
    ensures refused { IfErr result (λ f. FailsBy f.cause
        (FailsMember interface (decls.VarMember (names_of names.now) (source.view_type of.now))
        (view_context context.now) (view_body body.now))) }
{
    match type_of_values(alloc, context, body, of) {
        Err(fault) => Err(fault),
        Ok(_of) => Ok(()),
    }
}

// Constants.
fn add_shown_constants(
    alloc: Global,
    context: &mut Context,
    body: &mut Body,
    interface: u32,
    names: &[Name],
    e: &Expr,
) -> Result<(), TypingFault>
    requires begun { IsBegun interface (view_context context.old) (view_body body.old) }
    ensures adds { OnOk result (AddsMember interface (decls.ConMember (names_of names.now) (source.view_expr e.now))
        (view_context context.old) (view_body body.old) (view_context context.new) (view_body body.new)) }
    ensures begun { OnOk result (IsBegun interface (view_context context.new) (view_body body.new)) }
    ensures refused { IfErr result (λ f. FailsBy f.cause
        (FailsMember interface (decls.ConMember (names_of names.now) (source.view_expr e.now))
        (view_context context.old) (view_body body.old))) }
{
    let first = context.constants.len();
    match add_constants(alloc, context, body, names, e) {
        Err(fault) => Err(fault),
        Ok(()) => show_names(
            &mut context.exports,
            interface,
            names,
            Lead::Constant,
            first,
        ),
    }
}

// Types.
fn add_shown_types(
    alloc: Global,
    context: &mut Context,
    body: &mut Body,
    interface: u32,
    names: &[Name],
    of: &TypeTree,
) -> Result<(), TypingFault>
    requires begun { IsBegun interface (view_context context.old) (view_body body.old) }
    ensures adds { OnOk result (AddsMember interface (decls.TypeMember (names_of names.now) (source.view_type of.now))
        (view_context context.old) (view_body body.old) (view_context context.new) (view_body body.new)) }
    ensures begun { OnOk result (IsBegun interface (view_context context.new) (view_body body.new)) }
    ensures refused { IfErr result (λ f. FailsBy f.cause
        (FailsMember interface (decls.TypeMember (names_of names.now) (source.view_type of.now))
        (view_context context.old) (view_body body.old))) }
{
    let first = context.types.len();
    match add_types(alloc, context, body, names, of) {
        Err(fault) => Err(fault),
        Ok(()) => show_names(&mut context.exports, interface, names, Lead::Type, first),
    }
}

// An adt, with those that stand in it.
fn add_shown_adt(
    alloc: Global,
    context: &mut Context,
    body: &mut Body,
    interface: u32,
    name: &Name,
    members: &[Member],
    pick: &Option<Vec<Variant>>,
) -> Result<(), TypingFault>
    requires begun { IsBegun interface (view_context context.old) (view_body body.old) }
    ensures adds { OnOk result (AddsMember interface (decls.AdtMember name.now.text (source.view_members members.now)
        (option_map (λ vs. map source.view_variant vs.items) pick.now))
        (view_context context.old) (view_body body.old) (view_context context.new) (view_body body.new)) }
    ensures begun { OnOk result (IsBegun interface (view_context context.new) (view_body body.new)) }
    ensures refused { IfErr result (λ f. FailsBy f.cause (FailsMember interface (decls.AdtMember name.now.text
        (source.view_members members.now) (option_map (λ vs. map source.view_variant vs.items) pick.now))
        (view_context context.old) (view_body body.old))) }
{
    let Ok(number) = u32::try_from(context.adts.defs().len()) else {
        return Err(TypingFault::no_memory());
    };
    match whole_adt(alloc, context, body, true, name, members, pick) {
        Err(fault) => Err(fault),
        Ok(()) => show_adt(&mut context.exports, interface, name, number),
    }
}

// A member.
#[tactic(auto, using(limbo_tree::proofs::Members::the_members))]
fn add_member(
    alloc: Global,
    context: &mut Context,
    body: &mut Body,
    interface: u32,
    member: &Member,
) -> Result<(), TypingFault>
    requires begun { IsBegun interface (view_context context.old) (view_body body.old) }
    ensures adds { OnOk result (AddsMember interface (source.view_member member.now)
        (view_context context.old) (view_body body.old) (view_context context.new) (view_body body.new)) }
    ensures begun { OnOk result (IsBegun interface (view_context context.new) (view_body body.new)) }
    ensures refused { IfErr result (λ f. FailsBy f.cause
        (FailsMember interface (source.view_member member.now) (view_context context.old) (view_body body.old))) }
{
    match member {
        Member::Var { names, of, .. } => {
            add_variables(alloc, context, body, interface, names, of)
        }
        Member::Function { names, of, .. } => {
            add_functions(alloc, context, body, interface, names, of)
        }
        Member::Con { names, value, .. } => {
            add_shown_constants(alloc, context, body, interface, names, value)
        }
        Member::Type { names, of, .. } => {
            add_shown_types(alloc, context, body, interface, names, of)
        }
        Member::Adt {
            name,
            members,
            pick,
            ..
        } => add_shown_adt(alloc, context, body, interface, name, members, pick),
    }
}

/// The members of a module, in order.
///
/// # Errors
/// Those of the first member that has one.
pub(crate) fn add_members(
    alloc: Global,
    context: &mut Context,
    body: &mut Body,
    interface: u32,
    members: &[Member],
) -> Result<(), TypingFault>
    requires begun { IsBegun interface (view_context context.old) (view_body body.old) }
    ensures adds { OnOk result (AddsMembers interface (source.view_members members.now)
        (view_context context.old) (view_body body.old) (view_context context.new) (view_body body.new)) }
    ensures refused { IfErr result (λ f. FailsBy f.cause
        (FailsMembers interface (source.view_members members.now) (view_context context.old) (view_body body.old))) }
{
    for member in members {
        match add_member(alloc, context, body, interface, member) {
            Ok(()) => {}
            Err(fault) => return Err(fault),
        }
    }
    Ok(())
}
