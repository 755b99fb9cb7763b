//! The form of a type, of fields and of variants, written up to the parts that are types and adts themselves.

ghost use Rattle.std.specs.Prelude.{ℕ, List, [], ◌∷◌, ◌++◌, map, OnOk, codes, encode_utf8_all};
ghost use Rattle.std.specs.Fmt.{decimal};
ghost use Rattle.limbo_types.specs.View.{view_ty};
ghost use Rattle.limbo_layout.specs.View.{view_fields, view_variant};
ghost use Rattle.link_sign.specs.TypeText.{Letter, Whole, pieces, after_commas, fields_pieces, variants_pieces, name_at};
ghost use Rattle.link_sign.specs.Drafts.{ThePiece, TheType, TheTypes, TheFields, TheVariants, listed, Adds, Spreads};

use crate::draft::{Draft, Pending};
use inf_text::Text;
use limbo_layout::{Field, Variant};
use limbo_types::Ty;
use std::alloc::{AllocError, Global};

/// Leaves types to be written with commas between them.
pub fn leave_listed<'a>(draft: &mut Draft<'a>, ts: &'a [Ty]) -> Result<(), AllocError>
    ensures { OnOk result (Adds [] (listed (map view_ty ts.now)) draft.old draft.new) }
{
    match ts.split_first() {
        Some((first, more)) => draft.leave(&[Pending::Types(more), Pending::Type(first)]),
        None => Ok(()),
    }
}

// A word, and a type behind it.
fn put_before<'a>(draft: &mut Draft<'a>, word: &[u8], t: &'a Ty) -> Result<(), AllocError>
    ensures { OnOk result (Adds word.now (TheType (view_ty t.now) ∷ []) draft.old draft.new) }
{
    draft.put(word)?;
    draft.leave(&[Pending::Type(t)])
}

fn put_tuple<'a>(draft: &mut Draft<'a>, parts: &'a [Ty]) -> Result<(), AllocError>
    ensures { OnOk result (Adds (codes "(") (ThePiece (Letter 41) ∷ listed (map view_ty parts.now)) draft.old draft.new) }
{
    draft.put(b"(")?;
    draft.leave(&[Pending::Letter(b')')])?;
    leave_listed(draft, parts)
}

fn put_ref(draft: &mut Draft, adt: u32) -> Result<(), AllocError>
    ensures { OnOk result (Adds (codes "R") (ThePiece (Whole adt) ∷ []) draft.old draft.new) }
{
    draft.put(b"R")?;
    draft.leave(&[Pending::Whole(adt)])
}

fn put_variant_ref(draft: &mut Draft, adt: u32, variant: u32) -> Result<(), AllocError>
    ensures { OnOk result (Adds (codes "V" ++ (decimal variant ++ codes ";")) (ThePiece (Whole adt) ∷ []) draft.old draft.new) }
{
    draft.put(b"V")?;
    draft.put_number(variant as usize)?;
    draft.put(b";")?;
    draft.leave(&[Pending::Whole(adt)])
}

fn put_module(
    alloc: Global,
    modules: &[Text],
    draft: &mut Draft,
    number: u32,
) -> Result<(), AllocError>
    ensures { OnOk result (Adds (codes "M" ++ (encode_utf8_all (name_at modules.now number) ++ codes ";")) [] draft.old draft.new) }
{
    draft.put(b"M")?;
    if let Some(name) = modules.get(number as usize) {
        draft.put_name(alloc, name)?;
    }
    draft.put(b";")
}

/// Writes a type.
#[tactic(auto, using(limbo_types::proofs::View::the_types))]
pub fn put_type<'a>(
    alloc: Global,
    modules: &[Text],
    draft: &mut Draft<'a>,
    t: &'a Ty,
) -> Result<(), AllocError>
    ensures { OnOk result (Spreads modules.now (pieces modules.now (view_ty t.now)) draft.old draft.new) }
{
    match t {
        Ty::Byte => draft.put(b"b"),
        Ty::Int => draft.put(b"i"),
        Ty::Big => draft.put(b"B"),
        Ty::Chars => draft.put(b"s"),
        Ty::Nothing => draft.put(b"n"),
        Ty::Nil => draft.put(b"N"),
        Ty::Array(item) => put_before(draft, b"A", item),
        Ty::List(item) => put_before(draft, b"L", item),
        Ty::Chan(item) => put_before(draft, b"C", item),
        Ty::Tuple(parts) => put_tuple(draft, parts),
        Ty::Adt(number) => draft.leave(&[Pending::Whole(*number)]),
        Ty::RefAdt(number) => put_ref(draft, *number),
        Ty::RefPick { adt, variant } => put_variant_ref(draft, *adt, *variant),
        Ty::Module(number) => put_module(alloc, modules, draft, *number),
    }
}

// A comma, and a type behind it. More are left.
fn put_next<'a>(draft: &mut Draft<'a>, first: &'a Ty, more: &'a [Ty]) -> Result<(), AllocError>
    ensures { OnOk result (Adds (codes ",") (TheTypes (map view_ty more.now) ∷ TheType (view_ty first.now) ∷ []) draft.old draft.new) }
{
    draft.put(b",")?;
    draft.leave(&[Pending::Types(more), Pending::Type(first)])
}

/// Writes types, each behind a comma: the first of them, and the others are left.
pub fn put_types<'a>(draft: &mut Draft<'a>, ts: &'a [Ty]) -> Result<(), AllocError>
    ensures { (modules : List (List ℕ)) → OnOk result (Spreads modules (after_commas (map (pieces modules) (map view_ty ts.now)))
        draft.old draft.new) }
{
    match ts.split_first() {
        Some((first, more)) => put_next(draft, first, more),
        None => Ok(()),
    }
}

// A field. More are left.
fn put_field<'a>(
    alloc: Global,
    draft: &mut Draft<'a>,
    first: &'a Field,
    more: &'a [Field],
) -> Result<(), AllocError>
    ensures { OnOk result (Adds (encode_utf8_all first.now.name ++ codes ":")
        (TheFields (view_fields more.now) ∷ ThePiece (Letter 59) ∷ TheType (view_ty first.now.ty) ∷ []) draft.old draft.new) }
{
    draft.put_name(alloc, &first.name)?;
    draft.put(b":")?;
    draft.leave(&[
        Pending::Fields(more),
        Pending::Letter(b';'),
        Pending::Type(&first.ty),
    ])
}

/// Writes fields: the first of them, and the others are left.
pub fn put_fields<'a>(
    alloc: Global,
    draft: &mut Draft<'a>,
    fields: &'a [Field],
) -> Result<(), AllocError>
    ensures { (modules : List (List ℕ)) → OnOk result (Spreads modules (fields_pieces modules (view_fields fields.now))
        draft.old draft.new) }
{
    match fields.split_first() {
        Some((first, more)) => put_field(alloc, draft, first, more),
        None => Ok(()),
    }
}

// A variant. More are left.
fn put_variant<'a>(
    alloc: Global,
    draft: &mut Draft<'a>,
    first: &'a Variant,
    more: &'a [Variant],
) -> Result<(), AllocError>
    ensures { OnOk result (Adds (codes "|" ++ (encode_utf8_all first.now.name ++ codes "{"))
        (TheVariants (map view_variant more.now) ∷ ThePiece (Letter 125) ∷ TheFields (view_fields first.now.fields.items) ∷ [])
        draft.old draft.new) }
{
    draft.put(b"|")?;
    draft.put_name(alloc, &first.name)?;
    draft.put(b"{")?;
    draft.leave(&[
        Pending::Variants(more),
        Pending::Letter(b'}'),
        Pending::Fields(&first.fields),
    ])
}

/// Writes variants: the first of them, and the others are left.
pub fn put_variants<'a>(
    alloc: Global,
    draft: &mut Draft<'a>,
    variants: &'a [Variant],
) -> Result<(), AllocError>
    ensures { (modules : List (List ℕ)) → OnOk result (Spreads modules (variants_pieces modules (map view_variant variants.now))
        draft.old draft.new) }
{
    match variants.split_first() {
        Some((first, more)) => put_variant(alloc, draft, first, more),
        None => Ok(()),
    }
}
