//! Parts of values by their names.

ghost use Rattle.std.specs.Prelude.{◌≡◌, ◌<◌, ℕ, List, Some, length, map, slice_get, IfSome, IfNone, IfOk};
ghost use Rattle.limbo_types.specs.Types.{Ty as AnyTy};
ghost use Rattle.limbo_types.specs.View.{view_ty};
ghost use Rattle.limbo_layout.specs.Adts.{Def};
ghost use Rattle.limbo_layout.specs.View.{view_def, view_defs};
ghost use Rattle.limbo_fields.specs.Fields.{IsPart, IsPlaceName, LacksField, Names, own_fields, before_own, before_common};

use crate::field::{count_fields, find_field, own_fields};
use crate::place::place_of;
use inf_text::Text;
use limbo_layout::AdtDef;
use limbo_types::Ty;
use std::alloc::AllocError;

/// A part of a value.
#[derive(Clone, Copy)]
pub struct Part<'a> {
    /// Its number among the parts as they lie in memory.
    pub number: usize,
    pub ty: &'a Ty,
}

// How many parts stand before the fields that a value has of its own.
fn before_own(def: &AdtDef, variant: u32) -> Result<usize, AllocError>
    requires { variant < length def.now.picks.items }
    ensures { IfOk result (λ n. n ≡ before_own (view_def def.now) variant) }
{
    let earlier = &def.picks[..variant as usize];
    let Some(others) = count_fields(earlier) else {
        return Err(AllocError);
    };
    let Some(count) = others.checked_add(def.fields.len()) else {
        return Err(AllocError);
    };
    match count.checked_add(1) {
        Some(count) => Ok(count),
        None => Err(AllocError),
    }
}

// How many parts stand before the common fields.
fn before_common(def: &AdtDef) -> usize
    ensures { result ≡ before_common (view_def def.now) }
{
    if def.picks.is_empty() { 0 } else { 1 }
}

// The part of an adt's value that is a field of its own variant.
fn own_part<'a>(
    def: &'a AdtDef,
    variant: Option<u32>,
    name: &Text,
) -> Result<Option<Part<'a>>, AllocError>
    ensures found { IfOk result (λ o. IfSome o (λ p. IsPart (view_def def.now) variant name.now p.number (view_ty p.ty.now))) }
    ensures absent { IfOk result (λ o. IfNone o (LacksField (own_fields (view_def def.now) variant) name.now)) }
{
    let own = own_fields(def, variant);
    let Some(place) = find_field(own, name) else {
        return Ok(None);
    };
    let Some(variant) = variant else {
        return Ok(None);
    };
    let before = before_own(def, variant)?;
    match before.checked_add(place) {
        Some(number) => Ok(Some(Part {
            number,
            ty: &own[place].ty,
        })),
        None => Err(AllocError),
    }
}

// The part of an adt's value that a name is.
fn part_in<'a>(
    def: &'a AdtDef,
    variant: Option<u32>,
    name: &Text,
) -> Result<Option<Part<'a>>, AllocError>
    ensures found { IfOk result (λ o. IfSome o (λ p. IsPart (view_def def.now) variant name.now p.number (view_ty p.ty.now))) }
    ensures absent { IfOk result (λ o. IfNone o ((part : ℕ) (t : AnyTy) → IsPart (view_def def.now) variant name.now part t → ⊥)) }
{
    if let Some(part) = own_part(def, variant, name)? {
        return Ok(Some(part));
    }
    match find_field(&def.fields, name) {
        None => Ok(None),
        Some(place) => Ok(Some(Part {
            number: before_common(def) + place,
            ty: &def.fields[place].ty,
        })),
    }
}

// The part of a value of the adt of a number.
fn part_at<'a>(
    defs: &'a [AdtDef],
    adt: u32,
    variant: Option<u32>,
    name: &Text,
) -> Result<Option<Part<'a>>, AllocError>
    ensures found { IfOk result (λ o. IfSome o (λ p. (d : Def) × (slice_get (view_defs defs.now) adt ≡ Some d)
        × IsPart d variant name.now p.number (view_ty p.ty.now))) }
    ensures absent { IfOk result (λ o. IfNone o ((d : Def) (part : ℕ) (t : AnyTy) → slice_get (view_defs defs.now) adt ≡ Some d
        → IsPart d variant name.now part t → ⊥)) }
{
    match defs.get(adt as usize) {
        None => Ok(None),
        Some(def) => part_in(def, variant, name),
    }
}

// The part of a tuple.
fn part_of_tuple<'a>(parts: &'a [Ty], name: &Text) -> Option<Part<'a>>
    ensures found { IfSome result
        (λ p. IsPlaceName name.now p.number × (slice_get (map view_ty parts.now) p.number ≡ Some (view_ty p.ty.now))) }
    ensures absent { IfNone result ((n : ℕ) (t : AnyTy) → IsPlaceName name.now n → slice_get (map view_ty parts.now) n ≡ Some t → ⊥) }
{
    let place = place_of(name.as_slice(), parts.len())?;
    Some(Part {
        number: place,
        ty: &parts[place],
    })
}

/// The part of a value of a type, or of what a `ref` names, that a name behind `.` is: a field of the adt, of the variant that is
/// known first; `t0`, `t1` and so on of a tuple (Limbo Language Reference, adts and tuples).
///
/// # Errors
/// Want of numbers: where an adt has more fields than there are numbers.
pub fn part_of<'a>(
    defs: &'a [AdtDef],
    of: &'a Ty,
    name: &Text,
) -> Result<Option<Part<'a>>, AllocError>
    ensures found { IfOk result (λ o. IfSome o (λ p. Names (view_defs defs.now) name.now (view_ty of.now) p.number (view_ty p.ty.now))) }
    ensures absent { IfOk result
        (λ o. IfNone o ((part : ℕ) (t : AnyTy) → Names (view_defs defs.now) name.now (view_ty of.now) part t → ⊥)) }
{
    match of {
        Ty::Adt(adt) => part_at(defs, *adt, None, name),
        Ty::RefAdt(adt) => part_at(defs, *adt, None, name),
        Ty::RefPick { adt, variant } => part_at(defs, *adt, Some(*variant), name),
        Ty::Tuple(parts) => Ok(part_of_tuple(parts, name)),
        _ => Ok(None),
    }
}
