//! Fields by their names.

ghost use Rattle.std.specs.Prelude.{◌≡◌, ◌<◌, ◌+◌, ℕ, Option, List, Some, length, map, slice_get, IfSome, IfNone, IfOk};
ghost use Rattle.limbo_types.specs.View.{view_ty};
ghost use Rattle.limbo_layout.specs.Adts.{variant_types};
ghost use Rattle.limbo_layout.specs.declared.def.Field as code_field;
ghost use Rattle.limbo_layout.specs.View.{view_def, view_fields, view_variant};
ghost use Rattle.limbo_fields.specs.Fields.{IsField, LacksField, own_fields};

use inf_text::Text;
use limbo_layout::{AdtDef, Field, Variant};

/// The place of the first field of a name.
pub(crate) fn find_field(fields: &[Field], name: &Text) -> Option<usize>
    ensures found { IfSome result (λ place. (f : code_field.Field) × (slice_get fields.now place ≡ Some f)
        × IsField (view_fields fields.now) name.now place (view_ty f.ty)) }
    ensures absent { IfNone result (LacksField (view_fields fields.now) name.now) }
{
    for (place, field) in fields.iter().enumerate() {
        if field.name == *name {
            return Some(place);
        }
    }
    None
}

/// The fields that a value has of its own where its variant is known.
pub(crate) fn own_fields<'a>(def: &'a AdtDef, variant: Option<u32>) -> &'a [Field]
    ensures { view_fields result.now ≡ own_fields (view_def def.now) variant }
{
    match variant {
        None => &[],
        Some(variant) => match def.picks.get(variant as usize) {
            None => &[],
            Some(variant) => variant.fields.as_slice(),
        },
    }
}

/// How many fields these variants have in all, if the number isn't too large.
pub(crate) fn count_fields(variants: &[Variant]) -> Option<usize>
    ensures { IfSome result (λ count. count ≡ length (variant_types (map view_variant variants.now))) }
{
    let mut count: usize = 0;
    for variant in variants {
        count = count.checked_add(variant.fields.as_slice().len())?;
    }
    Some(count)
}
