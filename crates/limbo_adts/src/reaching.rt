//! Whether one type reaches another.

ghost use Rattle.std.specs.Prelude.{◌≡◌, map};
ghost use Rattle.limbo_types.specs.View.{view_ty, view_tys};
ghost use Rattle.limbo_layout.specs.Adts.{types_of, variant_types, field_types};
ghost use Rattle.limbo_layout.specs.View.{view_def, view_defs, view_fields, view_variant};
ghost use Rattle.limbo_adts.specs.Closed.{row_of, rows};
ghost use Rattle.limbo_adts.specs.Reading as reading;

use crate::alike::touches;
use limbo_layout::{AdtDef, Field, Variant};
use limbo_types::Ty;

fn fields_touch(fields: &[Field], u: &Ty) -> bool
    ensures { result ≡ reading.any_touch (types_of (view_fields fields.now)) (view_ty u.now) }
{
    for field in fields {
        if touches(&field.ty, u) {
            return true;
        }
    }
    false
}

fn variants_touch(picks: &[Variant], u: &Ty) -> bool
    ensures { result ≡ reading.any_touch (variant_types (map view_variant picks.now)) (view_ty u.now) }
{
    for variant in picks {
        if fields_touch(&variant.fields, u) {
            return true;
        }
    }
    false
}

fn def_touches(def: &AdtDef, u: &Ty) -> bool
    ensures { result ≡ reading.any_touch (field_types (view_def def.now)) (view_ty u.now) }
{
    fields_touch(&def.fields, u) || variants_touch(&def.picks, u)
}

// Whether a field of the adt of this number touches a type.
fn number_touches(defs: &[AdtDef], number: u32, u: &Ty) -> bool
    ensures { result ≡ reading.any_touch (reading.fields_at (view_defs defs.now) number) (view_ty u.now) }
{
    match defs.get(number as usize) {
        Some(def) => def_touches(def, u),
        None => false,
    }
}

// Whether a field of one of these adts touches a type.
fn row_touches(defs: &[AdtDef], row: &[u32], u: &Ty) -> bool
    ensures { result ≡ reading.row_touches (view_defs defs.now) row.now (view_ty u.now) }
{
    for number in row {
        if number_touches(defs, *number, u) {
            return true;
        }
    }
    false
}

// The same of the adts that an adt may come to hold.
fn adt_touches(defs: &[AdtDef], closed: &[Vec<u32>], number: u32, u: &Ty) -> bool
    ensures { result ≡ reading.row_touches (view_defs defs.now) (row_of (rows closed.now) number) (view_ty u.now) }
{
    match closed.get(number as usize) {
        Some(row) => row_touches(defs, row, u),
        None => false,
    }
}

// The same of the adts that a type names.
#[tactic(auto, using(limbo_types::proofs::View::the_types))]
#[cycle(through)]
fn through(defs: &[AdtDef], closed: &[Vec<u32>], t: &Ty, u: &Ty) -> bool
    ensures { result ≡ reading.through (λ n. reading.row_touches (view_defs defs.now) (row_of (rows closed.now) n) (view_ty u.now)) (view_ty t.now) }
{
    match t {
        Ty::Array(item) => through(defs, closed, item, u),
        Ty::List(item) => through(defs, closed, item, u),
        Ty::Chan(item) => through(defs, closed, item, u),
        Ty::Tuple(parts) => any_through(defs, closed, parts, u),
        Ty::Adt(number) => adt_touches(defs, closed, *number, u),
        Ty::RefAdt(number) => adt_touches(defs, closed, *number, u),
        Ty::RefPick { adt, .. } => adt_touches(defs, closed, *adt, u),
        _ => false,
    }
}

#[cycle(through)]
fn any_through(defs: &[AdtDef], closed: &[Vec<u32>], ts: &[Ty], u: &Ty) -> bool
    ensures { result ≡ reading.any_through (λ n. reading.row_touches (view_defs defs.now) (row_of (rows closed.now) n) (view_ty u.now)) (view_tys ts.now) }
{
    for t in ts {
        if through(defs, closed, t, u) {
            return true;
        }
    }
    false
}

/// Whether one type reaches another, by the adts and what each may come to hold.
pub(crate) fn reaches_by(defs: &[AdtDef], closed: &[Vec<u32>], t: &Ty, u: &Ty) -> bool
    ensures { result ≡ reading.reach (view_defs defs.now) (rows closed.now) (view_ty t.now) (view_ty u.now) }
{
    touches(t, u) || through(defs, closed, t, u)
}
