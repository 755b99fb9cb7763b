//! The extents of types by a table of the adts', and that table.

ghost use Rattle.std.specs.Prelude.{◌≡◌, map, IfOk, List};
ghost use Rattle.limbo_types.specs.View.{view_ty, view_tys};
ghost use Rattle.limbo_layout.specs.Adts.{types_of, variant_types, tag, parts};
ghost use Rattle.limbo_layout.specs.View.{view_def, view_defs, view_fields, view_variant};
ghost use Rattle.value_extents.specs.Extent.{all_behind, all_extents, empty, extent, extents_of, in_order, round, table_of};
ghost use Rattle.value_extents.specs.Extent.{Extent as Taken};

use crate::extent::Extent;
use limbo_layout::{AdtDef, Field, Variant};
use limbo_types::Ty;
use std::alloc::{AllocError, Global};

/// The extent of a type.
#[cycle(extents)]
#[tactic(auto, using(limbo_types::proofs::View::the_types, crate::proofs::Others::is_reference))]
pub(crate) fn extent_of(table: &[Extent], t: &Ty) -> Extent
    ensures { result ≡ extent table.now (view_ty t.now) }
{
    match t {
        Ty::Byte => Extent::number(1),
        Ty::Int => Extent::number(4),
        Ty::Big => Extent::number(8),
        Ty::Chars => Extent::number(4),
        Ty::Nothing => Extent::empty(),
        Ty::Tuple(parts) => types_behind(table, Extent::empty(), parts).rounded(),
        Ty::Adt(number) => match table.get(*number as usize) {
            Some(e) => *e,
            None => Extent::empty(),
        },
        _ => Extent::reference(),
    }
}

/// Values of types behind what is there.
#[cycle(extents)]
pub(crate) fn types_behind(table: &[Extent], whole: Extent, types: &[Ty]) -> Extent
    ensures { result ≡ all_behind whole (all_extents table.now (view_tys types.now)) }
{
    let mut sum = whole;
    for t in types {
        sum = sum.behind(extent_of(table, t));
    }
    sum
}

/// Fields behind what is there.
pub(crate) fn fields_behind(table: &[Extent], whole: Extent, fields: &[Field]) -> Extent
    ensures { result ≡ all_behind whole (extents_of table.now (types_of (view_fields fields.now))) }
{
    let mut sum = whole;
    for field in fields {
        sum = sum.behind(extent_of(table, &field.ty));
    }
    sum
}

// The fields of all variants behind what is there.
fn variants_behind(table: &[Extent], whole: Extent, picks: &[Variant]) -> Extent
    ensures { result ≡ all_behind whole (extents_of table.now (variant_types (map view_variant picks.now))) }
{
    let mut sum = whole;
    for variant in picks {
        sum = fields_behind(table, sum, &variant.fields);
    }
    sum
}

// The tag of a pick adt, and nothing of another.
fn tagged(picks: &[Variant]) -> Extent
    ensures { (table : List Taken) → result ≡ all_behind empty (extents_of table (tag (map view_variant picks.now))) }
{
    let whole = Extent::empty();
    if picks.is_empty() {
        whole
    } else {
        whole.behind(Extent::number(4))
    }
}

// The extent of an adt.
fn adt_extent(table: &[Extent], def: &AdtDef) -> Extent
    ensures { result ≡ in_order (extents_of table.now (parts (view_def def.now))) }
{
    let whole = fields_behind(table, tagged(&def.picks), &def.fields);
    variants_behind(table, whole, &def.picks).rounded()
}

// One round more.
fn next_table(alloc: Global, table: &[Extent], defs: &[AdtDef]) -> Result<Vec<Extent>, AllocError>
    ensures { IfOk result (λ next. next.items ≡ round table.now (view_defs defs.now)) }
{
    let mut next = Vec::new(alloc);
    for def in defs {
        next.push(adt_extent(table, def))?;
    }
    Ok(next)
}

/// The extents of all adts.
pub(crate) fn table_of(alloc: Global, defs: &[AdtDef]) -> Result<Vec<Extent>, AllocError>
    ensures { IfOk result (λ table. table.items ≡ table_of (view_defs defs.now)) }
{
    let mut table = Vec::new(alloc);
    for _ in 0..defs.len() {
        table = next_table(alloc, &table, defs)?;
    }
    Ok(table)
}
