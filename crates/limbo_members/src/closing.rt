//! Whether adts may stand, and their fields where they are known.

ghost use Rattle.std.specs.Prelude.{◌≡◌, ◌≤◌, ◌++◌, ℕ, length, map, take, Some, slice_get, IfOk, IfErr, OnOk};
ghost use Rattle.limbo_types.specs.Types.{Tuple};
ghost use Rattle.limbo_types.specs.View.{view_ty, tys_of};
ghost use Rattle.limbo_layout.specs.Adts.{Def, types_of, variant_types, tag, parts};
ghost use Rattle.limbo_layout.specs.View.{view_fields, view_variant, view_def, view_defs};
ghost use Rattle.limbo_refusals.specs.Refusals.{Refuses, TypeTooLarge};
ghost use Rattle.limbo_allowed.specs.Allowed.{RefusesType};
ghost use Rattle.limbo_causes.specs.Causes as causes;
ghost use Rattle.limbo_causes.specs.Causes.{FailsBy, ByRefusal};
ghost use Rattle.limbo_context.specs.View.{view_context};
ghost use Rattle.limbo_locals.specs.limbo_local.Failing.{FailsToStand};
ghost use Rattle.limbo_members.specs.Standing.{AreAllowed, IsAllowedIn, with_adts_in};
ghost use Rattle.limbo_members.specs.Adding.{view_given};

use crate::copying::{copy_defs, copy_texts};
use crate::given::Given;
use crate::tables::set_table;
use inf_text::Span;
use limbo_allowed::allow;
use limbo_causes::TypingFault;
use limbo_context::Context;
use limbo_layout::{AdtDef, AdtsFault, Field, Variant};
use limbo_refusals::ExprFault;
use limbo_types::{Ty, copy};
use std::alloc::{AllocError, Global};

// The types of fields, behind those that are there.
fn push_field_types(alloc: Global, types: &mut Vec<Ty>, fields: &[Field]) -> Result<(), AllocError>
    ensures { IfOk result (λ _. map view_ty types.new.items ≡ map view_ty types.old.items ++ types_of (view_fields fields.now)) }
{
    for field in fields {
        types.push(copy(alloc, &field.ty)?)?;
    }
    Ok(())
}

// The same of variants.
fn push_variant_types(
    alloc: Global,
    types: &mut Vec<Ty>,
    variants: &[Variant],
) -> Result<(), AllocError>
    ensures { IfOk result (λ _. map view_ty types.new.items
        ≡ map view_ty types.old.items ++ variant_types (map view_variant variants.now)) }
{
    for variant in variants {
        push_field_types(alloc, types, &variant.fields)?;
    }
    Ok(())
}

// The type of the tag of a pick adt.
#[tactic(auto, using(limbo_types::proofs::View::the_types))]
fn tag_of(alloc: Global, picks: &[Variant]) -> Result<Vec<Ty>, AllocError>
    ensures { IfOk result (λ ts. map view_ty ts.items ≡ tag (map view_variant picks.now)) }
{
    match picks {
        [] => Ok(Vec::new(alloc)),
        [_, ..] => {
            let mut types = Vec::new(alloc);
            types.push(Ty::Int)?;
            Ok(types)
        }
    }
}

// What a value of an adt is made of.
fn parts_of(alloc: Global, def: &AdtDef) -> Result<Vec<Ty>, AllocError>
    ensures { IfOk result (λ ts. map view_ty ts.items ≡ parts (view_def def.now)) }
{
    let mut types = tag_of(alloc, &def.picks)?;
    push_field_types(alloc, &mut types, &def.fields)?;
    push_variant_types(alloc, &mut types, &def.picks)?;
    Ok(types)
}

/// Whether an adt's parts together have a type that values may have.
///
/// # Errors
/// Want of memory. 51 where one of them holds an `FD` as a value, 53 where one is, or holds, a value of a user's module, 55 where they take
/// more than 65,536 bytes.
#[tactic(auto, using(limbo_types::proofs::View::the_types))]
pub fn allow_def(alloc: Global, context: &Context, def: &AdtDef) -> Result<(), ExprFault>
    ensures allowed { OnOk result (IsAllowedIn (view_context context.now) (view_def def.now)) }
    ensures refused { IfErr result (λ f. Refuses f (RefusesType (view_context context.now).adts
        (length (view_context context.now).modules) context.now.system context.now.fd (Tuple (tys_of (parts (view_def def.now)))))) }
{
    let tuple = Ty::Tuple(parts_of(alloc, def)?);
    allow(alloc, &context.adts, context.system, context.fd, &tuple)
}

// Whether the adts from a number on may stand.
fn allow_from(alloc: Global, context: &Context, first: usize) -> Result<(), ExprFault>
    ensures allowed { OnOk result (AreAllowed first (view_context context.now)) }
    ensures refused { IfErr result (λ f. Refuses f (FailsToStand first (view_context context.now))) }
{
    let defs = context.adts.defs();
    for number in first..defs.len() {
        match allow_def(alloc, context, &defs[number]) {
            Ok(()) => {}
            Err(fault) => return Err(fault),
        }
    }
    Ok(())
}

// An adt takes too much. Those before a number took not too much before: that isn't told.
fn too_large(first: usize, adt: u32, at: Span) -> TypingFault
    ensures { FailsBy result.cause (λ k. (k ≡ causes.Refused TypeTooLarge) × (first ≤ adt)) }
{
    if (adt as usize) < first {
        TypingFault::no_memory()
    } else {
        TypingFault::refused(ExprFault::TypeTooLarge, at)
    }
}

// The adts from a number on become these.
fn set_adts(
    alloc: Global,
    context: &mut Context,
    first: usize,
    mut adts: Vec<AdtDef>,
    at: Span,
) -> Result<(), TypingFault>
    ensures table { OnOk result (view_context context.new ≡ with_adts_in first (view_defs adts.items) (view_context context.old)) }
    ensures refused { IfErr result (λ f. FailsBy f.cause
        (ByRefusal (FailsToStand first (with_adts_in first (view_defs adts.items) (view_context context.old))))) }
{
    let mut defs = copy_defs(alloc, context.adts.defs())?;
    defs.truncate(first);
    defs.append(&mut adts)?;
    let modules = copy_texts(alloc, context.adts.modules())?;
    match set_table(alloc, context, defs, modules) {
        Ok(()) => Ok(()),
        Err(AdtsFault::NoMemory) => Err(TypingFault::no_memory()),
        Err(AdtsFault::TooLarge { adt }) => Err(too_large(first, adt, at)),
    }
}

/// The adts from a number on become those that were given, if they may stand.
///
/// # Errors
/// Want of memory. 51, 53 and 55 where one of them may not: where it holds an `FD` as a value, a value of a user's module, or itself as a
/// value, or takes more than 65,536 bytes.
pub(crate) fn close_adts(
    alloc: Global,
    context: &mut Context,
    first: usize,
    given: Given,
    at: Span,
) -> Result<(), TypingFault>
    ensures table { OnOk result (view_context context.new
        ≡ with_adts_in first (view_given given).adts (view_context context.old)) }
    ensures allowed { OnOk result (AreAllowed first (view_context context.new)) }
    ensures refused { IfErr result (λ f. FailsBy f.cause
        (ByRefusal (FailsToStand first (with_adts_in first (view_given given).adts (view_context context.old))))) }
{
    let Given {
        fields: _fields,
        adts,
    } = given;
    match set_adts(alloc, context, first, adts, at) {
        Err(fault) => Err(fault),
        Ok(()) => match allow_from(alloc, context, first) {
            Ok(()) => Ok(()),
            Err(fault) => Err(TypingFault::refused(fault, at)),
        },
    }
}
