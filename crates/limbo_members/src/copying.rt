//! Definitions of adts once more.

ghost use Rattle.std.specs.Prelude.{◌≡◌, map, IfOk};
ghost use Rattle.limbo_layout.specs.View.{view_field, view_fields, view_variant, view_def, view_defs};

use inf_text::Text;
use limbo_layout::{AdtDef, Field, Variant};
use limbo_types::copy;
use std::alloc::{AllocError, Global};

// The same field once more.
fn copy_field(alloc: Global, f: &Field) -> Result<Field, AllocError>
    ensures { IfOk result (λ copied. view_field copied ≡ view_field f.now) }
{
    Ok(Field {
        name: f.name.clone()?,
        ty: copy(alloc, &f.ty)?,
    })
}

/// The same fields once more.
pub(crate) fn copy_fields(alloc: Global, fields: &[Field]) -> Result<Vec<Field>, AllocError>
    ensures { IfOk result (λ copies. view_fields copies.items ≡ view_fields fields.now) }
{
    let mut copies = Vec::new(alloc);
    for field in fields {
        copies.push(copy_field(alloc, field)?)?;
    }
    Ok(copies)
}

// The same variant once more.
fn copy_variant(alloc: Global, v: &Variant) -> Result<Variant, AllocError>
    ensures { IfOk result (λ copied. view_variant copied ≡ view_variant v.now) }
{
    Ok(Variant {
        name: v.name.clone()?,
        fields: copy_fields(alloc, &v.fields)?,
    })
}

// The same variants once more.
fn copy_variants(alloc: Global, variants: &[Variant]) -> Result<Vec<Variant>, AllocError>
    ensures { IfOk result (λ copies. map view_variant copies.items ≡ map view_variant variants.now) }
{
    let mut copies = Vec::new(alloc);
    for variant in variants {
        copies.push(copy_variant(alloc, variant)?)?;
    }
    Ok(copies)
}

// The same definition once more.
fn copy_def(alloc: Global, d: &AdtDef) -> Result<AdtDef, AllocError>
    ensures { IfOk result (λ copied. view_def copied ≡ view_def d.now) }
{
    Ok(AdtDef {
        name: d.name.clone()?,
        fields: copy_fields(alloc, &d.fields)?,
        picks: copy_variants(alloc, &d.picks)?,
    })
}

/// The same definitions once more.
pub(crate) fn copy_defs(alloc: Global, defs: &[AdtDef]) -> Result<Vec<AdtDef>, AllocError>
    ensures { IfOk result (λ copies. view_defs copies.items ≡ view_defs defs.now) }
{
    let mut copies = Vec::new(alloc);
    for def in defs {
        copies.push(copy_def(alloc, def)?)?;
    }
    Ok(copies)
}

/// The same names once more.
pub(crate) fn copy_texts(alloc: Global, texts: &[Text]) -> Result<Vec<Text>, AllocError>
    ensures { IfOk result (λ copies. copies.items ≡ texts.now) }
{
    let mut copies = Vec::new(alloc);
    for text in texts {
        copies.push(text.clone()?)?;
    }
    Ok(copies)
}
