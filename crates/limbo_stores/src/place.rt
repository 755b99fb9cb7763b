//! What may be stored into places.

ghost use Rattle.std.specs.Prelude.{◌≡◌, ◌↔◌, IsTrue, option_map};
ghost use Rattle.limbo_types.specs.View.{view_ty};
ghost use Rattle.limbo_adts.specs.Table.{defs_of};
ghost use Rattle.limbo_typed.specs.View.{view_place};
ghost use Rattle.limbo_stores.specs.Stores.{holder, CanClose, RefusesPlace};
ghost use Rattle.limbo_stores.specs.Telling.{Tells};
ghost use Rattle.limbo_stores.specs.Choosing as choosing;

use crate::outcome::Store;
use limbo_adts::Adts;
use limbo_typed::{Place, PlaceNode};
use limbo_types::Ty;

// The type of the nearest heap object that holds a place.
#[tactic(auto, using(limbo_typed::proofs::View::the_exprs, crate::proofs::Forms::no_holder))]
fn holder(place: &Place) -> Option<&Ty>
    ensures { option_map (λ t. view_ty t.now) result ≡ holder (view_place place.now) }
{
    match &place.at {
        PlaceNode::Field { whole, .. } => holder(whole),
        PlaceNode::Element { array, .. } => Some(&array.ty),
        PlaceNode::Character { text, .. } => holder(text),
        PlaceNode::Target { reference } => Some(&reference.ty),
        _ => None,
    }
}

// Whether what is stored into a place may name the object that holds the place.
fn can_close(adts: &Adts, place: &Place) -> bool
    ensures { IsTrue result ↔ CanClose (defs_of adts.now) (view_place place.now) }
{
    match holder(place) {
        Some(object) => adts.reaches(&place.ty, object),
        None => false,
    }
}

// Whether a type is `FD`, the adt of this number.
#[tactic(auto, using(limbo_types::proofs::View::the_types, crate::proofs::Forms::no_fd))]
fn is_of_fd(fd: Option<u32>, t: &Ty) -> bool
    ensures { result ≡ choosing.is_of_fd fd (view_ty t.now) }
{
    match t {
        Ty::Adt(number) => match fd {
            Some(it) => it == *number,
            None => false,
        },
        _ => false,
    }
}

// Whether a place is an `FD`, or a part of one.
#[tactic(auto, using(limbo_typed::proofs::View::the_exprs, crate::proofs::Forms::stands_in_none))]
fn lies_in_fd(fd: Option<u32>, place: &Place) -> bool
    ensures { result ≡ choosing.lies_in_fd fd (view_place place.now) }
{
    is_of_fd(fd, &place.ty)
        || match &place.at {
            PlaceNode::Field { whole, .. } => lies_in_fd(fd, whole),
            PlaceNode::Character { text, .. } => lies_in_fd(fd, text),
            _ => false,
        }
}

/// Whether a store into a place is allowed.
pub(crate) fn place_store(adts: &Adts, fd: Option<u32>, place: &Place) -> Store
    ensures { Tells result (RefusesPlace (defs_of adts.now) fd (view_place place.now)) }
{
    if lies_in_fd(fd, place) {
        Store::Opaque
    } else if can_close(adts, place) {
        Store::Cyclic
    } else {
        Store::Allowed
    }
}
