//! Elements of arrays, and characters of strings.

ghost use Rattle.std.specs.Prelude.{◌≡◌, IfOk, IfErr, option_map};
ghost use Rattle.limbo_types.specs.View.{view_ty};
ghost use Rattle.limbo_typed.specs.View.{view_expr};
ghost use Rattle.limbo_refusals.specs.Refusals as refusals;
ghost use Rattle.limbo_refusals.specs.Refusals.{Refuses, NoneIs};
ghost use Rattle.limbo_places.specs.Elements.{Indexes};
ghost use Rattle.limbo_places.specs.Choosing as choosing;

use crate::building::{boxed, copied, place_of, put, read};
use limbo_forms::{is_int, is_settled};
use limbo_refusals::{ExprFault, clash_of};
use limbo_typed::{Operation, PlaceNode, TExpr, TNode};
use limbo_types::Ty;
use std::alloc::{AllocError, Global};

#[tactic(auto, using(limbo_types::proofs::View::the_types, crate::proofs::Forms::no_string))]
fn is_string(t: &Ty) -> bool
    ensures { result ≡ choosing.is_string (view_ty t.now) }
{
    matches!(t, Ty::Chars)
}

// The type of an array's elements, where it is known.
#[tactic(auto, using(limbo_types::proofs::View::the_types, crate::proofs::Forms::no_element))]
fn settled_element(t: &Ty) -> Option<&Ty>
    ensures { option_map (λ i. view_ty i.now) result ≡ choosing.settled_element (view_ty t.now) }
{
    match t {
        Ty::Array(item) => { if is_settled(item) { Some(item) } else { None } }
        _ => None,
    }
}

// A character of a string that stands in no place.
#[tactic(auto, using(limbo_types::proofs::View::the_types, limbo_typed::proofs::View::the_exprs))]
fn character_of_value(
    alloc: Global,
    text: Box<TExpr>,
    index: Box<TExpr>,
) -> Result<Box<TExpr>, AllocError>
    ensures { IfOk result (λ e. view_expr e.value ≡ choosing.character_of_value (view_expr text.value) (view_expr index.value)) }
{
    let mut args = Vec::new(alloc);
    put(&mut args, text)?;
    put(&mut args, index)?;
    let operation = Operation::Character;
    boxed(alloc, Ty::Int, TNode::Apply { operation, args })
}

// A character of a string, in the place where it stands, if it stands in one.
#[tactic(auto, using(limbo_types::proofs::View::the_types, limbo_typed::proofs::View::the_exprs))]
fn character(alloc: Global, text: Box<TExpr>, index: Box<TExpr>) -> Result<Box<TExpr>, AllocError>
    ensures { IfOk result (λ e. view_expr e.value ≡ choosing.character (view_expr text.value) (view_expr index.value)) }
{
    match place_of(text) {
        Ok(text) => read(alloc, &Ty::Int, PlaceNode::Character { text, index }),
        Err(text) => character_of_value(alloc, text, index),
    }
}

/// `base[index]`: an element of an array, or a character of a string.
///
/// # Errors
/// Refusal 50, and want of memory.
pub fn index(alloc: Global, base: Box<TExpr>, index: Box<TExpr>) -> Result<Box<TExpr>, ExprFault>
    // It is what stands at the index.
    ensures typed { IfOk result (λ e. Indexes (view_expr base.value) (view_expr index.value) (view_expr e.value)) }
    // Where it is refused, nothing does.
    ensures refused { IfErr result (λ f. Refuses f (λ r. (r ≡ refusals.Clash (view_ty base.value.ty) (view_ty index.value.ty))
        × NoneIs (Indexes (view_expr base.value) (view_expr index.value)))) }
{
    if !is_int(&index.ty) {
        return Err(clash_of(alloc, &base.ty, &index.ty));
    }
    if is_string(&base.ty) {
        return Ok(character(alloc, base, index)?);
    }
    let Some(item) = settled_element(&base.ty) else {
        return Err(clash_of(alloc, &base.ty, &index.ty));
    };
    let item = copied(alloc, item)?;
    Ok(read(alloc, &item, PlaceNode::Element { array: base, index })?)
}
