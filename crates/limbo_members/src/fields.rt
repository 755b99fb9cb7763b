//! Fields and variants that declarations give adts.

ghost use Rattle.std.specs.Prelude.{◌≡◌, ◌++◌, map, option_map, IfOk, IfErr, OnOk};
ghost use Rattle.limbo_tree.specs.View as source;
ghost use Rattle.limbo_tree.specs.View.{names_of};
ghost use Rattle.limbo_types.specs.View.{view_ty};
ghost use Rattle.limbo_layout.specs.View.{view_fields, view_variant};
ghost use Rattle.limbo_causes.specs.Causes.{FailsBy};
ghost use Rattle.limbo_written.specs.Written.{FailsAsType};
ghost use Rattle.limbo_context.specs.View.{view_context, view_body};
ghost use Rattle.limbo_locals.specs.limbo_local.Members as members;
ghost use Rattle.limbo_locals.specs.limbo_local.Members.{AreFields, AreVariants, variants_in, bare, named_variants};
ghost use Rattle.limbo_locals.specs.limbo_local.Failing.{FailsFields, FailsVariants};
ghost use Rattle.limbo_members.specs.Written.{AddsFields, AddsVariants};

use crate::copying::copy_fields;
use limbo_causes::TypingFault;
use limbo_context::{Body, Context};
use limbo_layout::{Field, Variant};
use limbo_tree::Name;
use limbo_types::{Ty, copy};
use limbo_written::type_of_values;
use std::alloc::{AllocError, Global};

/// Fields of a type, behind those that are there.
pub(crate) fn push_fields(
    alloc: Global,
    fields: &mut Vec<Field>,
    names: &[Name],
    t: &Ty,
) -> Result<(), AllocError>
    ensures { IfOk result (λ _. view_fields fields.new.items
        ≡ view_fields fields.old.items ++ members.fields (names_of names.now) (view_ty t.now)) }
{
    for name in names {
        let name = name.text.clone()?;
        let ty = copy(alloc, t)?;
        fields.push(Field { name, ty })?;
    }
    Ok(())
}

// Variants with fields, behind those that are there.
fn push_variants(
    alloc: Global,
    variants: &mut Vec<Variant>,
    names: &[Name],
    fields: &[Field],
) -> Result<(), AllocError>
    ensures { IfOk result (λ _. map view_variant variants.new.items
        ≡ map view_variant variants.old.items ++ named_variants (names_of names.now) (view_fields fields.now)) }
{
    for name in names {
        let name = name.text.clone()?;
        let fields = copy_fields(alloc, fields)?;
        variants.push(Variant { name, fields })?;
    }
    Ok(())
}

// The variants without their fields.
fn bare_of(alloc: Global, all: &[limbo_tree::Variant]) -> Result<Vec<Variant>, AllocError>
    ensures { IfOk result (λ vs. map view_variant vs.items ≡ bare (map source.view_variant all.now)) }
{
    let mut variants = Vec::new(alloc);
    for variant in all {
        push_variants(alloc, &mut variants, &variant.names, &[])?;
    }
    Ok(variants)
}

/// The variants of a pick adt without their fields; none of another adt.
pub(crate) fn bare_variants(
    alloc: Global,
    pick: &Option<Vec<limbo_tree::Variant>>,
) -> Result<Vec<Variant>, AllocError>
    ensures { IfOk result (λ vs. map view_variant vs.items
        ≡ bare (variants_in (option_map (λ ws. map source.view_variant ws.items) pick.now))) }
{
    match pick {
        None => Ok(Vec::new(alloc)),
        Some(all) => bare_of(alloc, all),
    }
}

// Fields of one written type.
fn add_fields(
    alloc: Global,
    context: &Context,
    body: &Body,
    fields: &mut Vec<Field>,
    f: &limbo_tree::Field,
) -> Result<(), TypingFault>
    ensures added { OnOk result (AddsFields (view_context context.now) (view_body body.now) (source.view_field f.now)
        (view_fields fields.old.items) (view_fields fields.new.items)) }
    ensures refused { IfErr result (λ e. FailsBy e.cause
        (FailsAsType (view_context context.now) (view_body body.now) (source.view_field f.now).of)) }
{
    match type_of_values(alloc, context, body, &f.of) {
        Err(fault) => Err(fault),
        Ok(t) => Ok(push_fields(alloc, fields, &f.names, &t)?),
    }
}

// Fields as they are written.
fn fields_of(
    alloc: Global,
    context: &Context,
    body: &Body,
    all: &[limbo_tree::Field],
) -> Result<Vec<Field>, TypingFault>
    ensures fields { IfOk result (λ gs. AreFields (view_context context.now) (view_body body.now)
        (map source.view_field all.now) (view_fields gs.items)) }
    ensures refused { IfErr result (λ e. FailsBy e.cause
        (FailsFields (view_context context.now) (view_body body.now) (map source.view_field all.now))) }
{
    let mut fields = Vec::new(alloc);
    for f in all {
        match add_fields(alloc, context, body, &mut fields, f) {
            Ok(()) => {}
            Err(fault) => return Err(fault),
        }
    }
    Ok(fields)
}

// Variants of one written list of fields.
fn add_variants(
    alloc: Global,
    context: &Context,
    body: &Body,
    variants: &mut Vec<Variant>,
    v: &limbo_tree::Variant,
) -> Result<(), TypingFault>
    ensures added { OnOk result (AddsVariants (view_context context.now) (view_body body.now) (source.view_variant v.now)
        (map view_variant variants.old.items) (map view_variant variants.new.items)) }
    ensures refused { IfErr result (λ e. FailsBy e.cause
        (FailsFields (view_context context.now) (view_body body.now) (source.view_variant v.now).fields)) }
{
    match fields_of(alloc, context, body, &v.fields) {
        Err(fault) => Err(fault),
        Ok(fields) => Ok(push_variants(alloc, variants, &v.names, &fields)?),
    }
}

// Variants as they are written.
fn all_variants(
    alloc: Global,
    context: &Context,
    body: &Body,
    all: &[limbo_tree::Variant],
) -> Result<Vec<Variant>, TypingFault>
    ensures variants { IfOk result (λ ws. AreVariants (view_context context.now) (view_body body.now)
        (map source.view_variant all.now) (map view_variant ws.items)) }
    ensures refused { IfErr result (λ e. FailsBy e.cause
        (FailsVariants (view_context context.now) (view_body body.now) (map source.view_variant all.now))) }
{
    let mut variants = Vec::new(alloc);
    for v in all {
        match add_variants(alloc, context, body, &mut variants, v) {
            Ok(()) => {}
            Err(fault) => return Err(fault),
        }
    }
    Ok(variants)
}

/// The variants of a pick adt, with their fields; none of another adt.
///
/// # Errors
/// Those of the types of the fields.
pub(crate) fn variants_of(
    alloc: Global,
    context: &Context,
    body: &Body,
    pick: &Option<Vec<limbo_tree::Variant>>,
) -> Result<Vec<Variant>, TypingFault>
    ensures variants { IfOk result (λ ws. AreVariants (view_context context.now) (view_body body.now)
        (variants_in (option_map (λ vs. map source.view_variant vs.items) pick.now)) (map view_variant ws.items)) }
    ensures refused { IfErr result (λ e. FailsBy e.cause (FailsVariants (view_context context.now) (view_body body.now)
        (variants_in (option_map (λ vs. map source.view_variant vs.items) pick.now)))) }
{
    match pick {
        None => Ok(Vec::new(alloc)),
        Some(all) => all_variants(alloc, context, body, all),
    }
}
