//! The parts that adts are made of, in the order in which they lie in memory.

ghost use Rattle.std.specs.Prelude.{◌≡◌, ◌++◌, map, IfOk, OnOk};
ghost use Rattle.limbo_types.specs.View.{view_ty};
ghost use Rattle.limbo_layout.specs.Adts.{parts, tag, types_of, variant_types};
ghost use Rattle.limbo_layout.specs.View.{view_def, view_defs, view_fields, view_variant};
ghost use Rattle.value_rooms.specs.Tables.{view_parts};

use limbo_layout::{AdtDef, Field, Variant};
use limbo_types::{Ty, copy};
use std::alloc::{AllocError, Global};

// The types of fields behind others.
fn put_fields(alloc: Global, types: &mut Vec<Ty>, fields: &[Field]) -> Result<(), AllocError>
    ensures { OnOk result (map view_ty types.new.items ≡ map view_ty types.old.items ++ types_of (view_fields fields.now)) }
{
    for field in fields {
        types.push(copy(alloc, &field.ty)?)?;
    }
    Ok(())
}

// The types of the fields of all variants behind others, one variant after the other.
fn put_variants(alloc: Global, types: &mut Vec<Ty>, picks: &[Variant]) -> Result<(), AllocError>
    ensures { OnOk result (map view_ty types.new.items ≡ map view_ty types.old.items ++ variant_types (map view_variant picks.now)) }
{
    for variant in picks {
        put_fields(alloc, types, &variant.fields)?;
    }
    Ok(())
}

// The tag of a pick adt, and nothing of another.
#[tactic(auto, using(limbo_types::proofs::View::the_types))]
fn tags(alloc: Global, picks: &[Variant]) -> Result<Vec<Ty>, AllocError>
    ensures { IfOk result (λ types. map view_ty types.items ≡ tag (map view_variant picks.now)) }
{
    let mut types = Vec::new(alloc);
    if !picks.is_empty() {
        types.push(Ty::Int)?;
    }
    Ok(types)
}

// The parts of an adt: the tag of a pick adt comes first.
fn parts_of(alloc: Global, def: &AdtDef) -> Result<Vec<Ty>, AllocError>
    ensures { IfOk result (λ types. map view_ty types.items ≡ parts (view_def def.now)) }
{
    let mut types = tags(alloc, &def.picks)?;
    put_fields(alloc, &mut types, &def.fields)?;
    put_variants(alloc, &mut types, &def.picks)?;
    Ok(types)
}

/// The parts of each adt.
pub(crate) fn all_parts(alloc: Global, defs: &[AdtDef]) -> Result<Vec<Vec<Ty>>, AllocError>
    ensures { IfOk result (λ all. view_parts all.items ≡ map parts (view_defs defs.now)) }
{
    let mut all = Vec::new(alloc);
    for def in defs {
        all.push(parts_of(alloc, def)?)?;
    }
    Ok(all)
}
