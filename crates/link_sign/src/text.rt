//! The text of a function's type.

ghost use Rattle.std.specs.Prelude.{◌≡◌, ℕ, List, [], ◌∷◌, map, codes, IfOk, OnOk};
ghost use Rattle.limbo_types.specs.View.{view_fn};
ghost use Rattle.limbo_layout.specs.View.{view_fields, view_variant, view_defs};
ghost use Rattle.limbo_adts.specs.Table.{defs_of};
ghost use Rattle.link_sign.specs.TypeText.{Letter, IsText, Spells, adt_at, repeated, adt_pieces, fn_pieces};
ghost use Rattle.link_sign.specs.Drafts.{ThePiece, TheFields, TheVariants, Adds, Spreads, Steps, view_item, whole};
ghost use Rattle.link_sign.specs.TypeText as text;

use crate::draft::{Draft, Pending};
use crate::opened::Opened;
use crate::spread::{leave_listed, put_fields, put_type, put_types, put_variants};
use limbo_adts::Adts;
use limbo_layout::AdtDef;
use limbo_types::FnTy;
use std::alloc::{AllocError, Global};

// What an adt begins with; its fields and variants are left.
fn put_def<'a>(draft: &mut Draft<'a>, def: &'a AdtDef) -> Result<(), AllocError>
    ensures { OnOk result (Adds (codes "a{")
        (ThePiece (Letter 125) ∷ TheVariants (map view_variant def.now.picks.items) ∷ TheFields (view_fields def.now.fields.items) ∷ [])
        draft.old draft.new) }
{
    draft.put(b"a{")?;
    draft.leave(&[
        Pending::Letter(b'}'),
        Pending::Variants(&def.picks),
        Pending::Fields(&def.fields),
    ])
}

// An adt that is opened now.
fn put_adt<'a>(draft: &mut Draft<'a>, defs: &'a [AdtDef], number: u32) -> Result<(), AllocError>
    ensures { (modules : List (List ℕ)) → OnOk result (Spreads modules (adt_pieces modules (adt_at (view_defs defs.now) number))
        draft.old draft.new) }
{
    match defs.get(number as usize) {
        Some(def) => put_def(draft, def),
        None => draft.put(b"a{}"),
    }
}

// The number of an adt that was opened before.
fn put_again(draft: &mut Draft, number: usize) -> Result<(), AllocError>
    ensures { OnOk result (Adds (repeated number) [] draft.old draft.new) }
{
    draft.put(b"@")?;
    draft.put_number(number)?;
    draft.put(b";")
}

// An adt, opened now or before.
fn put_whole<'a>(
    defs: &'a [AdtDef],
    opened: &mut Opened,
    draft: &mut Draft<'a>,
    adt: u32,
) -> Result<(), AllocError>
    ensures { (modules : List (List ℕ)) → OnOk result (Steps (view_defs defs.now) modules (ThePiece (text.Whole adt))
        opened.old opened.new draft.old draft.new) }
{
    match opened.number(adt) {
        Some(number) => put_again(draft, number),
        None => {
            opened.open(adt)?;
            put_adt(draft, defs, adt)
        }
    }
}

// What is to be written next, which was taken from the draft.
fn put_item<'a>(
    alloc: Global,
    adts: &'a Adts,
    opened: &mut Opened,
    draft: &mut Draft<'a>,
    item: Pending<'a>,
) -> Result<(), AllocError>
    ensures { OnOk result (Steps (defs_of adts.now) adts.now.modules (view_item item.entry) opened.old opened.new draft.old draft.new) }
{
    match item {
        Pending::Letter(letter) => draft.put(&[letter]),
        Pending::Type(t) => put_type(alloc, adts.modules(), draft, t),
        Pending::Types(ts) => put_types(draft, ts),
        Pending::Fields(fields) => put_fields(alloc, draft, fields),
        Pending::Variants(variants) => put_variants(alloc, draft, variants),
        Pending::Whole(adt) => put_whole(adts.defs(), opened, draft, adt),
    }
}

// What a function's text begins with; its types are left.
fn begin<'a>(alloc: Global, f: &'a FnTy) -> Result<Draft<'a>, AllocError>
    ensures { IfOk result (λ d. (modules : List (List ℕ)) → whole modules d ≡ fn_pieces modules (view_fn f.now)) }
{
    let mut draft = Draft::new(alloc);
    draft.put(b"f(")?;
    draft.leave(&[Pending::Type(&f.answer), Pending::Letter(b')')])?;
    leave_listed(&mut draft, &f.args)?;
    Ok(draft)
}

// All that is to be written.
fn put_rest<'a>(alloc: Global, adts: &'a Adts, draft: &mut Draft<'a>) -> Result<(), AllocError>
    ensures { OnOk result (Spells (defs_of adts.now) adts.now.modules [] (whole adts.now.modules draft.old) draft.new.text.items) }
{
    let mut opened = Opened::new(alloc);
    while let Some(item) = draft.pending.pop() {
        put_item(alloc, adts, &mut opened, draft, item)?;
    }
    Ok(())
}

/// The text of a function's type in UTF-8: `fn(x: int): int` has `f(i)i`. A type stands in it as it is built, whatever its name: an
/// adt as its fields and variants, where it is met for the first time, and as a number wherever it is met again.
///
/// # Errors
/// Want of memory.
pub fn sign_text(alloc: Global, adts: &Adts, f: &FnTy) -> Result<Vec<u8>, AllocError>
    ensures { IfOk result (λ text. IsText (defs_of adts.now) adts.now.modules (view_fn f.now) text.items) }
{
    let mut draft = begin(alloc, f)?;
    put_rest(alloc, adts, &mut draft)?;
    let Draft { text, pending: _ } = draft;
    Ok(text)
}
