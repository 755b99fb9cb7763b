//! How values stand in slots.

ghost use Rattle.std.specs.Prelude.{◌≡◌};
ghost use Rattle.limbo_types.specs.View.{view_ty};
ghost use Rattle.value_frames.specs.Frames.{form_of};
ghost use Rattle.value_rooms.specs.Forms.{view_form};

use limbo_types::Ty;

/// How a value stands in its slot: not at all; as a number; as a word that refers; or in a record of its own, to which the slot refers.
#[derive(Clone, Copy, PartialEq, Eq, Debug)]
pub enum Form {
    Nowhere,
    AsNumber,
    AsReference,
    Boxed,
}

/// How a value of a type stands in its slot.
#[tactic(auto, using(limbo_types::proofs::View::the_types))]
pub fn form_of(t: &Ty) -> Form
    ensures { view_form result ≡ form_of (view_ty t.now) }
{
    match t {
        Ty::Nothing => Form::Nowhere,
        Ty::Byte => Form::AsNumber,
        Ty::Int => Form::AsNumber,
        Ty::Big => Form::Boxed,
        Ty::Tuple(_) => Form::Boxed,
        Ty::Adt(_) => Form::Boxed,
        Ty::Chars => Form::AsReference,
        Ty::Nil => Form::AsReference,
        Ty::Array(_) => Form::AsReference,
        Ty::List(_) => Form::AsReference,
        Ty::Chan(_) => Form::AsReference,
        Ty::RefAdt(_) => Form::AsReference,
        Ty::RefPick { .. } => Form::AsReference,
        Ty::Module(_) => Form::AsReference,
    }
}
