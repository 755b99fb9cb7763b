//! Variables that are read and assigned to.

ghost use Rattle.std.specs.Prelude.{◌≡◌, ℕ, Option, map, slice_get};
ghost use Rattle.limbo_types.specs.View.{view_ty};
ghost use Rattle.limbo_typed.specs.View.{view_var, view_place, view_place_node, view_pattern, view_expr, view_node};
ghost use Rattle.limbo_typed.specs.Typed.{At, ToPlace};
ghost use Rattle.typed_part.specs.Part as part;
ghost use Rattle.typed_part.specs.Seen.{view_inside};

use crate::inside::Inside;
use crate::kinds::{are_alike, is_number};
use limbo_typed::{Pattern, Place, PlaceNode, TExpr, TNode, TVar};
use limbo_types::Ty;

// Whether a variable is of the type of numbers that a type is.
fn is_variable(variables: &[TVar], number: u32, t: &Ty) -> bool
    ensures { result ≡ part.some_is (λ v. part.are_alike (view_ty t.now) v.ty) (slice_get (map view_var variables.now) number) }
{
    match variables.get(number as usize) {
        Some(variable) => are_alike(t, &variable.ty),
        None => false,
    }
}

#[tactic(auto, using(limbo_typed::proofs::View::the_exprs, crate::proofs::Others::no_variable))]
fn is_place_at(inside: Inside, t: &Ty, at: &PlaceNode) -> bool
    ensures { result ≡ part.is_place (view_inside inside.entry) (At (view_ty t.now) (view_place_node at.now)) }
{
    match at {
        PlaceNode::Local(number) => is_variable(inside.variables, *number, t),
        PlaceNode::Global(number) => is_variable(inside.globals, *number, t),
        _ => false,
    }
}

/// Whether a place is a variable of the function or of the module, and has numbers.
#[tactic(auto, using(limbo_typed::proofs::View::the_exprs))]
pub(crate) fn is_place(inside: Inside, place: &Place) -> bool
    ensures { result ≡ part.is_place (view_inside inside.entry) (view_place place.now) }
{
    is_place_at(inside, &place.ty, &place.at)
}

/// Whether a value of a type goes to a variable of the function.
pub(crate) fn takes_value(inside: Inside, t: &Ty, number: u32) -> bool
    ensures { result ≡ part.takes_value (view_inside inside.entry) (view_ty t.now) number }
{
    is_variable(inside.variables, number, t)
}

/// Whether zero goes to a variable of the function.
pub(crate) fn takes_zero(inside: Inside, number: u32) -> bool
    ensures { result ≡ part.takes_zero (view_inside inside.entry) number }
{
    match inside.variables.get(number as usize) {
        Some(variable) => is_number(&variable.ty),
        None => false,
    }
}

/// Whether a value of one type goes to a place of numbers, of the type that its assignment has.
#[tactic(auto, using(limbo_typed::proofs::View::the_exprs, crate::proofs::Others::to_no_place, crate::proofs::Types::place_type))]
pub(crate) fn assigns(inside: Inside, pattern: &Pattern, value: &Ty, t: &Ty) -> bool
    ensures { result ≡ part.assigns (view_inside inside.entry) (view_pattern pattern.now) (view_ty value.now) (view_ty t.now) }
{
    match pattern {
        Pattern::Place(place) => assigns_to(inside, place, value, t),
        _ => false,
    }
}

#[tactic(auto, using(crate::proofs::Types::place_type))]
fn assigns_to(inside: Inside, place: &Place, value: &Ty, t: &Ty) -> bool
    ensures { result ≡ part.assigns (view_inside inside.entry) (ToPlace (view_place place.now)) (view_ty value.now) (view_ty t.now) }
{
    is_place(inside, place) && are_alike(value, &place.ty) && are_alike(t, &place.ty)
}

#[tactic(auto, using(limbo_typed::proofs::View::the_exprs, crate::proofs::Others::no_global))]
fn global_at(at: &PlaceNode) -> Option<u32>
    ensures { result ≡ part.global_at (view_place_node at.now) }
{
    match at {
        PlaceNode::Global(number) => Some(*number),
        _ => None,
    }
}

#[tactic(auto, using(limbo_typed::proofs::View::the_exprs))]
fn global_of(place: &Place) -> Option<u32>
    ensures { result ≡ part.global_of (view_place place.now) }
{
    global_at(&place.at)
}

/// The module's variable to which a pattern leads.
#[tactic(auto, using(limbo_typed::proofs::View::the_exprs, crate::proofs::Others::to_no_global))]
pub(crate) fn global_to(pattern: &Pattern) -> Option<u32>
    ensures { result ≡ part.global_to (view_pattern pattern.now) }
{
    match pattern {
        Pattern::Place(place) => global_of(place),
        _ => None,
    }
}

#[tactic(auto, using(limbo_typed::proofs::View::the_exprs, crate::proofs::Others::reads_not))]
fn global_read(node: &TNode) -> Option<u32>
    ensures { result ≡ part.global_read (view_node node.now) }
{
    match node {
        TNode::Read(place) => global_of(place),
        _ => None,
    }
}

/// The module's variable that an expression is.
#[tactic(auto, using(limbo_typed::proofs::View::the_exprs))]
pub(crate) fn global_in(e: &TExpr) -> Option<u32>
    ensures { result ≡ part.global_in (view_expr e.now) }
{
    global_read(&e.node)
}
