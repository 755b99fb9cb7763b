//! Which form a type has.

ghost use Rattle.std.specs.Prelude.{◌≡◌, option_map};
ghost use Rattle.limbo_types.specs.View.{view_ty, view_tys};
ghost use Rattle.limbo_types.specs.Same.{same};
ghost use Rattle.limbo_typed.specs.Fitting.{of_kind};
ghost use Rattle.limbo_forms.specs.Forms as forms;

use limbo_typed::Sequence;
use limbo_types::{Ty, equal};
use limbo_values::Kind;

/// The type of the numbers of a kind.
#[tactic(auto, using(limbo_types::proofs::View::the_types))]
pub fn of_kind(kind: Kind) -> Ty
    ensures { view_ty result ≡ of_kind kind }
{
    match kind {
        Kind::Byte => Ty::Byte,
        Kind::Int => Ty::Int,
        Kind::Big => Ty::Big,
    }
}

/// The kind of numbers that a type has.
#[tactic(auto, using(limbo_types::proofs::View::the_types, crate::proofs::Forms::no_kind))]
pub fn kind_of(t: &Ty) -> Option<Kind>
    ensures { result ≡ forms.kind_of (view_ty t.now) }
{
    match t {
        Ty::Byte => Some(Kind::Byte),
        Ty::Int => Some(Kind::Int),
        Ty::Big => Some(Kind::Big),
        _ => None,
    }
}

/// Whether a type is `int`.
#[tactic(auto, using(limbo_types::proofs::View::the_types, crate::proofs::Forms::not_int))]
pub fn is_int(t: &Ty) -> bool
    ensures { result ≡ forms.is_int (view_ty t.now) }
{
    matches!(t, Ty::Int)
}

/// Whether a type is that of an open `nil`.
#[tactic(auto, using(limbo_types::proofs::View::the_types, crate::proofs::Forms::not_nil))]
pub fn is_nil(t: &Ty) -> bool
    ensures { result ≡ forms.is_nil (view_ty t.now) }
{
    matches!(t, Ty::Nil)
}

/// Whether a type is a string, or that of an open `nil`, which stands for one.
#[tactic(auto, using(limbo_types::proofs::View::the_types, crate::proofs::Forms::not_text))]
pub fn is_text(t: &Ty) -> bool
    ensures { result ≡ forms.is_text (view_ty t.now) }
{
    match t {
        Ty::Chars => true,
        Ty::Nil => true,
        _ => false,
    }
}

/// Whether values of a type are references.
#[tactic(auto, using(limbo_types::proofs::View::the_types, crate::proofs::Forms::not_reference))]
pub fn is_reference(t: &Ty) -> bool
    ensures { result ≡ forms.is_reference (view_ty t.now) }
{
    match t {
        Ty::Array(_) => true,
        Ty::List(_) => true,
        Ty::Chan(_) => true,
        Ty::RefAdt(_) => true,
        Ty::RefPick { .. } => true,
        Ty::Module(_) => true,
        _ => false,
    }
}

/// Whether a type is a channel.
#[tactic(auto, using(limbo_types::proofs::View::the_types, crate::proofs::Forms::not_channel))]
pub fn is_channel(t: &Ty) -> bool
    ensures { result ≡ forms.is_channel (view_ty t.now) }
{
    matches!(t, Ty::Chan(_))
}

/// The adt that a `ref` names, of a variant too.
#[tactic(auto, using(limbo_types::proofs::View::the_types, crate::proofs::Forms::no_ref))]
pub fn ref_of(t: &Ty) -> Option<u32>
    ensures { result ≡ forms.ref_of (view_ty t.now) }
{
    match t {
        Ty::RefAdt(adt) => Some(*adt),
        Ty::RefPick { adt, .. } => Some(*adt),
        _ => None,
    }
}

/// The type of a list's items. Of an open `nil` they are open.
#[tactic(auto, using(limbo_types::proofs::View::the_types, crate::proofs::Forms::no_item))]
pub fn item_of(t: &Ty) -> Option<&Ty>
    ensures { option_map (λ i. view_ty i.now) result ≡ forms.item_of (view_ty t.now) }
{
    match t {
        Ty::List(item) => Some(item),
        Ty::Nil => Some(t),
        _ => None,
    }
}

/// The type of an array's elements.
#[tactic(auto, using(limbo_types::proofs::View::the_types, crate::proofs::Forms::no_element))]
pub fn element_of(t: &Ty) -> Option<&Ty>
    ensures { option_map (λ i. view_ty i.now) result ≡ forms.element_of (view_ty t.now) }
{
    match t {
        Ty::Array(item) => Some(item),
        _ => None,
    }
}

/// What a type has the length of.
#[tactic(auto, using(limbo_types::proofs::View::the_types, crate::proofs::Forms::no_sequence))]
pub fn sequence_of(t: &Ty) -> Option<Sequence>
    ensures { result ≡ forms.sequence_of (view_ty t.now) }
{
    match t {
        Ty::Chars => Some(Sequence::Chars),
        Ty::Array(_) => Some(Sequence::Array),
        Ty::List(_) => Some(Sequence::List),
        _ => None,
    }
}

/// Whether a type is `array of byte`, or that of an open `nil`, which stands for one.
#[tactic(auto, using(limbo_types::proofs::View::the_types, crate::proofs::Forms::not_bytes, crate::proofs::Forms::not_byte))]
pub fn is_bytes(t: &Ty) -> bool
    ensures { result ≡ forms.is_bytes (view_ty t.now) }
{
    match t {
        Ty::Array(item) => matches!(&**item, Ty::Byte),
        Ty::Nil => true,
        _ => false,
    }
}

/// Whether two types are one.
pub fn is_same(t: &Ty, u: &Ty) -> bool
    ensures { result ≡ same (view_ty t.now) (view_ty u.now) }
{
    equal(t, u)
}

/// The kind of numbers that two types both have.
pub fn same_kind(t: &Ty, u: &Ty) -> Option<Kind>
    ensures { result ≡ forms.same_kind (view_ty t.now) (view_ty u.now) }
{
    let kind = kind_of(t)?;
    if is_same(t, u) { Some(kind) } else { None }
}

/// Whether no `nil` has a part in a type of which nothing says what it stands for.
#[tactic(auto, using(limbo_types::proofs::View::the_types, crate::proofs::Forms::settled_form))]
#[cycle(settled)]
pub fn is_settled(t: &Ty) -> bool
    ensures { result ≡ forms.is_settled (view_ty t.now) }
{
    match t {
        Ty::Nil => false,
        Ty::Array(item) => is_settled(item),
        Ty::List(item) => is_settled(item),
        Ty::Chan(item) => is_settled(item),
        Ty::Tuple(parts) => all_settled(parts),
        _ => true,
    }
}

#[cycle(settled)]
fn all_settled(ts: &[Ty]) -> bool
    ensures { result ≡ forms.all_settled (view_tys ts.now) }
{
    for t in ts {
        if !is_settled(t) {
            return false;
        }
    }
    true
}
