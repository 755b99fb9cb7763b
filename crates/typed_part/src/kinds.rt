//! Types of numbers, and of which kind these are.

ghost use Rattle.std.specs.Prelude.{◌≡◌};
ghost use Rattle.limbo_types.specs.Types.{Nothing};
ghost use Rattle.limbo_types.specs.Same as types;
ghost use Rattle.limbo_types.specs.View.{view_ty};
ghost use Rattle.typed_lower.specs.slot_code.Machine as machine;
ghost use Rattle.typed_lower.specs.Statements as lower;
ghost use Rattle.typed_part.specs.Part as part;

use limbo_types::{Ty, equal};
use limbo_values::Kind;

fn same_kind(a: Kind, b: Kind) -> bool
    ensures { result ≡ machine.same_kind a b }
{
    match a {
        Kind::Byte => matches!(b, Kind::Byte),
        Kind::Int => matches!(b, Kind::Int),
        Kind::Big => matches!(b, Kind::Big),
    }
}

// Of which kind the numbers of a type are, where it is one of numbers.
#[tactic(auto, using(limbo_types::proofs::View::the_types, crate::proofs::Types::no_number))]
fn number_kind(t: &Ty) -> Option<Kind>
    ensures { result ≡ lower.number_kind (view_ty t.now) }
{
    match t {
        Ty::Byte => Some(Kind::Byte),
        Ty::Int => Some(Kind::Int),
        Ty::Big => Some(Kind::Big),
        _ => None,
    }
}

/// Whether a type is one of numbers of this kind.
pub(crate) fn is_of(kind: Kind, t: &Ty) -> bool
    ensures { result ≡ part.is_of kind (view_ty t.now) }
{
    match number_kind(t) {
        Some(other) => same_kind(kind, other),
        None => false,
    }
}

/// Whether a type is one of numbers.
pub(crate) fn is_number(t: &Ty) -> bool
    ensures { result ≡ part.is_number (view_ty t.now) }
{
    match number_kind(t) {
        Some(_) => true,
        None => false,
    }
}

/// Whether two types are of numbers of one kind.
pub(crate) fn are_alike(t: &Ty, u: &Ty) -> bool
    ensures { result ≡ part.are_alike (view_ty t.now) (view_ty u.now) }
{
    match number_kind(t) {
        Some(kind) => is_of(kind, u),
        None => false,
    }
}

/// Whether two types are the same one.
pub(crate) fn same(t: &Ty, u: &Ty) -> bool
    ensures { result ≡ types.same (view_ty t.now) (view_ty u.now) }
{
    equal(t, u)
}

/// Whether a type is that of no value.
#[tactic(auto, using(limbo_types::proofs::View::the_types))]
pub(crate) fn is_nothing(t: &Ty) -> bool
    ensures { result ≡ types.same (view_ty t.now) Nothing }
{
    same(t, &Ty::Nothing)
}

/// Whether two answers are numbers of one kind, or no value.
pub(crate) fn answers_alike(t: &Ty, u: &Ty) -> bool
    ensures { result ≡ part.answers_alike (view_ty t.now) (view_ty u.now) }
{
    are_alike(t, u) || (is_nothing(t) && is_nothing(u))
}

/// Whether a variable of a type has a number or one reference.
#[tactic(auto, using(limbo_types::proofs::View::the_types, crate::proofs::Types::other_word))]
pub(crate) fn is_word(t: &Ty) -> bool
    ensures { result ≡ part.is_word (view_ty t.now) }
{
    match t {
        Ty::Nothing => false,
        Ty::Nil => false,
        Ty::Tuple(_) => false,
        Ty::Adt(_) => false,
        _ => true,
    }
}
