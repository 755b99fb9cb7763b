//! Whether each number in the types of a table names something there.

ghost use Rattle.std.specs.Prelude.{map, IsTrue};
ghost use Rattle.limbo_types.specs.View.{view_ty, view_tys, tys_of};
ghost use Rattle.limbo_layout.specs.Adts.{Names, AllName, AreNamed, HasVariant, types_of, variant_types, field_types};
ghost use Rattle.limbo_layout.specs.View.{view_def, view_defs, view_fields, view_variant};

use limbo_layout::{AdtDef, Field, Variant};
use limbo_types::Ty;

fn has_variant(defs: &[AdtDef], adt: u32, variant: u32) -> bool
    ensures { IsTrue result → HasVariant (view_defs defs.now) adt variant }
{
    match defs.get(adt as usize) {
        Some(def) => (variant as usize) < def.picks.len(),
        None => false,
    }
}

#[tactic(auto, using(limbo_types::proofs::View::the_types))]
#[cycle(naming)]
fn names(defs: &[AdtDef], modules: usize, t: &Ty) -> bool
    ensures { IsTrue result → Names (view_defs defs.now) modules (view_ty t.now) }
{
    match t {
        Ty::Byte => true,
        Ty::Int => true,
        Ty::Big => true,
        Ty::Chars => true,
        Ty::Nothing => true,
        Ty::Nil => true,
        Ty::Array(item) => names(defs, modules, item),
        Ty::List(item) => names(defs, modules, item),
        Ty::Chan(item) => names(defs, modules, item),
        Ty::Tuple(parts) => all_name(defs, modules, parts),
        Ty::Adt(number) => (*number as usize) < defs.len(),
        Ty::RefAdt(number) => (*number as usize) < defs.len(),
        Ty::RefPick { adt, variant } => has_variant(defs, *adt, *variant),
        Ty::Module(number) => (*number as usize) < modules,
    }
}

#[cycle(naming)]
fn all_name(defs: &[AdtDef], modules: usize, ts: &[Ty]) -> bool
    ensures { IsTrue result → AllName (view_defs defs.now) modules (view_tys ts.now) }
{
    for t in ts {
        if !names(defs, modules, t) {
            return false;
        }
    }
    true
}

fn fields_name(defs: &[AdtDef], modules: usize, fields: &[Field]) -> bool
    ensures { IsTrue result → AllName (view_defs defs.now) modules (tys_of (types_of (view_fields fields.now))) }
{
    for field in fields {
        if !names(defs, modules, &field.ty) {
            return false;
        }
    }
    true
}

fn variants_name(defs: &[AdtDef], modules: usize, variants: &[Variant]) -> bool
    ensures { IsTrue result → AllName (view_defs defs.now) modules (tys_of (variant_types (map view_variant variants.now))) }
{
    for variant in variants {
        if !fields_name(defs, modules, &variant.fields) {
            return false;
        }
    }
    true
}

fn def_names(defs: &[AdtDef], modules: usize, def: &AdtDef) -> bool
    ensures { IsTrue result → AllName (view_defs defs.now) modules (tys_of (field_types (view_def def.now))) }
{
    fields_name(defs, modules, &def.fields) && variants_name(defs, modules, &def.picks)
}

/// Whether each number in the fields of adts names an adt, a variant of it, or one of so many modules.
pub fn are_named(defs: &[AdtDef], modules: usize) -> bool
    ensures { IsTrue result → AreNamed (view_defs defs.now) modules }
{
    for def in defs {
        if !def_names(defs, modules, def) {
            return false;
        }
    }
    true
}
