//! What qualified names are.

ghost use Rattle.std.specs.Prelude.{◌≡◌, IfOk};
ghost use Rattle.limbo_tree.specs.View.{view_qual};
ghost use Rattle.limbo_context.specs.View.{view_context, view_body};
ghost use Rattle.limbo_body_types.specs.Found as found;

use crate::meant::{adt_led, has_field, module_led};
use inf_text::Text;
use limbo_context::{Body, Context};
use limbo_scope::Meaning;
use limbo_tree::Qual;
use std::alloc::AllocError;

/// What a name is where a body has come to.
#[derive(Clone, Copy)]
pub(crate) enum Found {
    /// It isn't there.
    Lacking,
    /// It means nothing: what stands before `->` or `.` is no module or adt, or it is a field.
    Nothing,
    /// It means this.
    Named(Meaning),
    /// It is a variant of an adt.
    Variant { adt: u32, variant: u32 },
}

// The member of the module that a name leads to.
fn member_of(context: &Context, body: &Body, before: Meaning, name: &Text) -> Found
    ensures { found.IsMember (view_context context.now) (view_body body.now) before name.now result }
{
    match module_led(context, body, before) {
        None => Found::Nothing,
        Some(interface) => match context.exported(interface, name) {
            None => Found::Lacking,
            Some(meaning) => Found::Named(meaning),
        },
    }
}

// The part of the adt that a name leads to: a member, or a variant, or a field, which means nothing.
fn part_of(
    context: &Context,
    body: &Body,
    before: Meaning,
    name: &Text,
) -> Result<Found, AllocError>
    ensures { IfOk result (λ f. found.IsPart (view_context context.now) (view_body body.now) before name.now f) }
{
    let Some(adt) = adt_led(context, body, before) else {
        return Ok(Found::Nothing);
    };
    if let Some(meaning) = context.member(adt, name) {
        return Ok(Found::Named(meaning));
    }
    if let Some(variant) = context.variant(adt, name)? {
        return Ok(Found::Variant { adt, variant });
    }
    if has_field(context, body, before, name)? {
        return Ok(Found::Nothing);
    }
    Ok(Found::Lacking)
}

// All of a name but its part.
fn head(context: &Context, body: &Body, name: &Qual) -> Found
    ensures { found.IsHead (view_context context.now) (view_body body.now) (view_qual name.now) result }
{
    match body.scopes.look_up(&name.first.text) {
        None => Found::Lacking,
        Some(meaning) => match &name.member {
            None => Found::Named(meaning),
            Some(member) => member_of(context, body, meaning, &member.text),
        },
    }
}

/// What a name is.
///
/// # Errors
/// Want of numbers for the variants of an adt.
pub(crate) fn find(context: &Context, body: &Body, name: &Qual) -> Result<Found, AllocError>
    ensures { IfOk result (λ f. found.IsFound (view_context context.now) (view_body body.now) (view_qual name.now) f) }
{
    match head(context, body, name) {
        Found::Named(meaning) => match &name.part {
            None => Ok(Found::Named(meaning)),
            Some(part) => part_of(context, body, meaning, &part.text),
        },
        other => Ok(other),
    }
}
