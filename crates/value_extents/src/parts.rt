//! The first parts of tuples and of adts, in the order in which they lie in memory.

ghost use Rattle.std.specs.Prelude.{◌≡◌, List, length, map, take};
ghost use Rattle.limbo_types.specs.View.{view_ty};
ghost use Rattle.limbo_layout.specs.Adts.{parts, tag, types_of, variant_types};
ghost use Rattle.limbo_layout.specs.View.{view_def, view_defs, view_fields, view_variant};
ghost use Rattle.core_code.specs.Terms.{part_types};
ghost use Rattle.value_extents.specs.Extent.{all_behind, empty, extents_of, Extent as Taken};

use crate::extent::Extent;
use crate::table::{fields_behind, types_behind};
use limbo_layout::{AdtDef, Field, Variant};
use limbo_types::Ty;

// The first of the fields behind what is there.
fn first_fields(table: &[Extent], whole: Extent, fields: &[Field], count: usize) -> Extent
    ensures { result ≡ all_behind whole (extents_of table.now (take count (types_of (view_fields fields.now)))) }
{
    fields_behind(table, whole, &fields[..count.min(fields.len())])
}

// The first of the fields of all variants behind what is there.
fn first_of_variants(table: &[Extent], whole: Extent, picks: &[Variant], count: usize) -> Extent
    ensures { result ≡ all_behind whole (extents_of table.now (take count (variant_types (map view_variant picks.now)))) }
{
    let mut sum = whole;
    let mut left = count;
    for variant in picks {
        sum = first_fields(table, sum, &variant.fields, left);
        left = left.saturating_sub(variant.fields.len());
    }
    sum
}

// The tag of a pick adt, if it is among the first parts, and nothing of another.
fn first_tag(picks: &[Variant], count: usize) -> Extent
    ensures { (table : List Taken) → result ≡ all_behind empty (extents_of table (take count (tag (map view_variant picks.now)))) }
{
    let whole = Extent::empty();
    if picks.is_empty() || count == 0 {
        whole
    } else {
        whole.behind(Extent::number(4))
    }
}

fn tags(picks: &[Variant]) -> usize
    ensures { result ≡ length (tag (map view_variant picks.now)) }
{
    if picks.is_empty() { 0 } else { 1 }
}

// The first parts of an adt: the tag of a pick adt comes first.
fn first_of_adt(table: &[Extent], def: &AdtDef, count: usize) -> Extent
    ensures { result ≡ all_behind empty (extents_of table.now (take count (parts (view_def def.now)))) }
{
    let tag = first_tag(&def.picks, count);
    let left = count.saturating_sub(tags(&def.picks));
    let sum = first_fields(table, tag, &def.fields, left);
    first_of_variants(
        table,
        sum,
        &def.picks,
        left.saturating_sub(def.fields.len()),
    )
}

/// The first parts of a type.
#[tactic(auto, using(limbo_types::proofs::View::the_types))]
pub(crate) fn first_parts(table: &[Extent], defs: &[AdtDef], t: &Ty, count: usize) -> Extent
    ensures { result ≡ all_behind empty (extents_of table.now (take count (part_types (view_defs defs.now) (view_ty t.now)))) }
{
    match t {
        Ty::Tuple(types) => types_behind(table, Extent::empty(), &types[..count.min(types.len())]),
        Ty::Adt(number) => match defs.get(*number as usize) {
            Some(def) => first_of_adt(table, def, count),
            None => Extent::empty(),
        },
        _ => Extent::empty(),
    }
}
