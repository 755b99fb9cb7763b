//! What names mean as types, and lead to.

ghost use Rattle.std.specs.Prelude.{◌≡◌, IfOk, option_map, map};
ghost use Rattle.limbo_types.specs.View.{view_ty};
ghost use Rattle.limbo_layout.specs.View.{view_defs};
ghost use Rattle.limbo_typed.specs.View.{view_var};
ghost use Rattle.limbo_context.specs.View.{view_context, view_body};
ghost use Rattle.limbo_body_types.specs.Means as means;
ghost use Rattle.limbo_body_types.specs.Fails.{HasField};
ghost use Rattle.limbo_body_types.specs.Found.{view_meant, Tells, HasPart};

use inf_text::Text;
use limbo_context::{Body, Context};
use limbo_fields::part_of;
use limbo_layout::AdtDef;
use limbo_scope::Meaning;
use limbo_typed::TVar;
use limbo_types::{Ty, copy};
use std::alloc::{AllocError, Global};

/// A type that a name means: one that is kept, or an adt or a module by its number.
#[derive(Clone, Copy)]
pub(crate) enum Meant<'c> {
    Kept(&'c Ty),
    Adt(u32),
    Module(u32),
}

// The number of the adt that a type is as a value.
#[tactic(auto, using(limbo_types::proofs::View::the_types, crate::proofs::Types::no_value))]
fn value_in(t: &Ty) -> Option<u32>
    ensures { result ≡ means.value_of (view_ty t.now) }
{
    match t {
        Ty::Adt(number) => Some(*number),
        _ => None,
    }
}

// The number of the adt that a type is, as a value or by a ref.
#[tactic(auto, using(limbo_types::proofs::View::the_types, crate::proofs::Types::no_adt))]
fn adt_in(t: &Ty) -> Option<u32>
    ensures { result ≡ means.adt_of (view_ty t.now) }
{
    match t {
        Ty::Adt(number) => Some(*number),
        Ty::RefAdt(number) => Some(*number),
        Ty::RefPick { adt, .. } => Some(*adt),
        _ => None,
    }
}

// The number of the module type that a type is.
#[tactic(auto, using(limbo_types::proofs::View::the_types, crate::proofs::Types::no_module))]
fn module_in(t: &Ty) -> Option<u32>
    ensures { result ≡ means.module_of (view_ty t.now) }
{
    match t {
        Ty::Module(number) => Some(*number),
        _ => None,
    }
}

/// The type itself.
///
/// # Errors
/// Want of memory.
#[tactic(auto, using(limbo_types::proofs::View::the_types))]
pub(crate) fn to_type(alloc: Global, meant: Meant) -> Result<Ty, AllocError>
    ensures { IfOk result (λ t. view_ty t ≡ view_meant meant.entry) }
{
    match meant {
        Meant::Kept(t) => copy(alloc, t),
        Meant::Adt(number) => Ok(Ty::Adt(number)),
        Meant::Module(number) => Ok(Ty::Module(number)),
    }
}

// The type of this number.
fn type_at(types: &[Ty], number: u32) -> Option<Meant<'_>>
    ensures { option_map view_meant result ≡ means.type_at (map view_ty types.now) number }
{
    match types.get(number as usize) {
        Some(t) => Some(Meant::Kept(t)),
        None => None,
    }
}

// The type of the variable of this number.
fn type_of_var(vars: &[TVar], number: u32) -> Option<Meant<'_>>
    ensures { option_map view_meant result ≡ means.type_of_var (map view_var vars.now) number }
{
    match vars.get(number as usize) {
        Some(var) => Some(Meant::Kept(&var.ty)),
        None => None,
    }
}

// What a declaration that isn't imported means as a type.
fn declared_type(context: &Context, meaning: Meaning) -> Option<Meant<'_>>
    ensures { option_map view_meant result ≡ means.declared_type (view_context context.now) meaning }
{
    match meaning {
        Meaning::Type(number) => type_at(&context.types, number),
        Meaning::Adt(number) => Some(Meant::Adt(number)),
        Meaning::Module(number) => Some(Meant::Module(number)),
        _ => None,
    }
}

/// What a name means as a type.
pub(crate) fn type_meant(context: &Context, meaning: Meaning) -> Option<Meant<'_>>
    ensures { option_map view_meant result ≡ means.type_meant (view_context context.now) meaning }
{
    match meaning {
        Meaning::Import(number) => match context.imports.get(number as usize) {
            Some(imported) => declared_type(context, imported.member),
            None => None,
        },
        _ => declared_type(context, meaning),
    }
}

/// The adt that a name means as a value.
pub(crate) fn adt_meant(context: &Context, meaning: Meaning) -> Option<u32>
    ensures { result ≡ means.adt_meant (view_context context.now) meaning }
{
    match type_meant(context, meaning) {
        Some(Meant::Kept(t)) => value_in(t),
        Some(Meant::Adt(number)) => Some(number),
        _ => None,
    }
}

// The type that a name leads to, as a variable too.
fn type_led<'c>(context: &'c Context, body: &'c Body, meaning: Meaning) -> Option<Meant<'c>>
    ensures { option_map view_meant result ≡ means.type_led (view_context context.now) (view_body body.now) meaning }
{
    match meaning {
        Meaning::Variable(number) => type_of_var(&body.variables, number),
        Meaning::Global(number) => type_of_var(&context.globals, number),
        _ => type_meant(context, meaning),
    }
}

/// The adt that a name leads to.
pub(crate) fn adt_led(context: &Context, body: &Body, meaning: Meaning) -> Option<u32>
    ensures { result ≡ means.adt_led (view_context context.now) (view_body body.now) meaning }
{
    match type_led(context, body, meaning) {
        Some(Meant::Kept(t)) => adt_in(t),
        Some(Meant::Adt(number)) => Some(number),
        _ => None,
    }
}

/// The module that a name leads to: it is the module's name, or that of a variable or a type that is one.
pub fn module_led(context: &Context, body: &Body, meaning: Meaning) -> Option<u32>
    ensures { result ≡ means.module_led (view_context context.now) (view_body body.now) meaning }
{
    match type_led(context, body, meaning) {
        Some(Meant::Kept(t)) => module_in(t),
        Some(Meant::Module(number)) => Some(number),
        _ => None,
    }
}

// Whether a type has a part of this name.
fn has_part(defs: &[AdtDef], of: &Ty, name: &Text) -> Result<bool, AllocError>
    ensures { IfOk result (λ yes. Tells yes (HasPart (view_defs defs.now) name.now (view_ty of.now))) }
{
    match part_of(defs, of, name)? {
        Some(_) => Ok(true),
        None => Ok(false),
    }
}

/// Whether what a name leads to has a field of this name.
///
/// # Errors
/// Want of numbers for the fields of an adt.
#[tactic(auto, using(limbo_types::proofs::View::the_types))]
pub(crate) fn has_field(
    context: &Context,
    body: &Body,
    before: Meaning,
    name: &Text,
) -> Result<bool, AllocError>
    ensures { IfOk result (λ yes. Tells yes (HasField (view_context context.now) (view_body body.now) before name.now)) }
{
    let defs = context.adts.defs();
    match type_led(context, body, before) {
        None => Ok(false),
        Some(Meant::Kept(t)) => has_part(defs, t, name),
        Some(Meant::Adt(number)) => has_part(defs, &Ty::Adt(number), name),
        Some(Meant::Module(number)) => has_part(defs, &Ty::Module(number), name),
    }
}
