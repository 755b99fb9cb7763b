//! Whether the numbers in definitions of adts name something.

ghost use Rattle.std.specs.Prelude.{◌≡◌, true, map, length, slice_get};
ghost use Rattle.limbo_types.specs.View.{view_ty, view_tys};
ghost use Rattle.limbo_layout.specs.Adts.{AreNamed, types_of, variant_types, field_types};
ghost use Rattle.limbo_layout.specs.View.{view_fields, view_variant, view_def, view_defs};
ghost use Rattle.limbo_allowed.specs.Choosing as choosing;
ghost use Rattle.limbo_members.specs.Tables.{AllNameIn};

use limbo_layout::{AdtDef, Field, Variant};
use limbo_types::Ty;

// Whether there is an adt of this number, with this variant.
fn has_variant(defs: &[AdtDef], adt: u32, variant: u32) -> bool
    ensures { result ≡ choosing.has_variant (slice_get (view_defs defs.now) adt) variant }
{
    match defs.get(adt as usize) {
        Some(def) => (variant as usize) < def.picks.len(),
        None => false,
    }
}

// Whether each number in a type names an adt, a variant of it, or one of so many modules.
#[tactic(auto, using(limbo_types::proofs::View::the_types, limbo_allowed::proofs::Forms::names_nothing))]
#[cycle(naming)]
fn names(defs: &[AdtDef], modules: usize, t: &Ty) -> bool
    ensures { result ≡ choosing.is_named (view_defs defs.now) modules (view_ty t.now) }
{
    match t {
        Ty::Array(item) => names(defs, modules, item),
        Ty::List(item) => names(defs, modules, item),
        Ty::Chan(item) => names(defs, modules, item),
        Ty::Tuple(parts) => all_name(defs, modules, parts),
        Ty::Adt(number) => (*number as usize) < defs.len(),
        Ty::RefAdt(number) => (*number as usize) < defs.len(),
        Ty::RefPick { adt, variant } => has_variant(defs, *adt, *variant),
        Ty::Module(number) => (*number as usize) < modules,
        _ => true,
    }
}

#[cycle(naming)]
fn all_name(defs: &[AdtDef], modules: usize, ts: &[Ty]) -> bool
    ensures { result ≡ choosing.all_named (view_defs defs.now) modules (view_tys ts.now) }
{
    for t in ts {
        if !names(defs, modules, t) {
            return false;
        }
    }
    true
}

// Whether each number in the types of fields does.
fn fields_name(defs: &[AdtDef], modules: usize, fields: &[Field]) -> bool
    ensures { result ≡ true → AllNameIn (view_defs defs.now) modules (types_of (view_fields fields.now)) }
{
    for field in fields {
        if !names(defs, modules, &field.ty) {
            return false;
        }
    }
    true
}

// The same of variants.
fn variants_name(defs: &[AdtDef], modules: usize, variants: &[Variant]) -> bool
    ensures { result ≡ true → AllNameIn (view_defs defs.now) modules (variant_types (map view_variant variants.now)) }
{
    for variant in variants {
        if !fields_name(defs, modules, &variant.fields) {
            return false;
        }
    }
    true
}

// The same of an adt.
fn def_names(defs: &[AdtDef], modules: usize, def: &AdtDef) -> bool
    ensures { result ≡ true → AllNameIn (view_defs defs.now) modules (field_types (view_def def.now)) }
{
    fields_name(defs, modules, &def.fields) && variants_name(defs, modules, &def.picks)
}

/// Whether each number in the types of all fields names an adt among these, a variant of it, or one of so many modules.
pub(crate) fn are_named(defs: &[AdtDef], modules: usize) -> bool
    ensures { result ≡ true → AreNamed (view_defs defs.now) modules }
{
    for def in defs {
        if !def_names(defs, modules, def) {
            return false;
        }
    }
    true
}
