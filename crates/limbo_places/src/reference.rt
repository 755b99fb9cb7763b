//! References to values.

ghost use Rattle.std.specs.Prelude.{◌≡◌, IfOk, IfErr, option_map};
ghost use Rattle.limbo_types.specs.View.{view_ty};
ghost use Rattle.limbo_typed.specs.View.{view_expr, view_node};
ghost use Rattle.limbo_refusals.specs.Refusals as refusals;
ghost use Rattle.limbo_refusals.specs.Refusals.{Refuses, NoneIs};
ghost use Rattle.limbo_places.specs.Targets.{Refers};
ghost use Rattle.limbo_places.specs.Choosing as choosing;

use crate::building::{boxed, put};
use limbo_refusals::{ExprFault, clash_of};
use limbo_typed::{Operation, TExpr, TNode};
use limbo_types::Ty;
use std::alloc::{AllocError, Global};

// The adt of whose values a type is.
#[tactic(auto, using(limbo_types::proofs::View::the_types, crate::proofs::Forms::no_adt))]
fn adt_of(t: &Ty) -> Option<u32>
    ensures { result ≡ choosing.adt_of (view_ty t.now) }
{
    match t {
        Ty::Adt(number) => Some(*number),
        _ => None,
    }
}

// The variant of an adt as which an operation makes a value.
#[tactic(auto, using(crate::proofs::Nodes::none_made))]
fn variant_made(adt: u32, operation: Operation) -> Option<u32>
    ensures { result ≡ choosing.variant_made adt operation }
{
    match operation {
        Operation::Adt { adt: made, variant } => { if made == adt { variant } else { None } }
        _ => None,
    }
}

// The variant of an adt as which a value is made where it is written.
#[tactic(auto, using(limbo_typed::proofs::View::the_exprs, crate::proofs::Nodes::not_made))]
fn made_as(adt: u32, node: &TNode) -> Option<u32>
    ensures { result ≡ choosing.made_as adt (view_node node.now) }
{
    match node {
        TNode::Apply { operation, .. } => variant_made(adt, *operation),
        _ => None,
    }
}

#[tactic(auto, using(limbo_types::proofs::View::the_types))]
fn ref_type(adt: u32, variant: Option<u32>) -> Ty
    ensures { view_ty result ≡ choosing.ref_type adt variant }
{
    match variant {
        Some(variant) => Ty::RefPick { adt, variant },
        None => Ty::RefAdt(adt),
    }
}

// A reference to a value of this adt.
#[tactic(auto, using(limbo_typed::proofs::View::the_exprs))]
fn reference(alloc: Global, adt: u32, value: Box<TExpr>) -> Result<Box<TExpr>, AllocError>
    ensures { IfOk result
        (λ e. view_expr e.value ≡ choosing.reference adt (view_ty value.value.ty) (view_node value.value.node)) }
{
    let variant = made_as(adt, &value.node);
    let mut args = Vec::new(alloc);
    put(&mut args, value)?;
    let operation = Operation::Ref;
    boxed(
        alloc,
        ref_type(adt, variant),
        TNode::Apply { operation, args },
    )
}

/// `ref value`: of the variant, where the value is made as one there, and else of the adt.
///
/// # Errors
/// Refusal 50, and want of memory.
pub fn refer(alloc: Global, value: Box<TExpr>) -> Result<Box<TExpr>, ExprFault>
    // It is a reference to the value.
    ensures typed { IfOk result (λ e. Refers (view_expr value.value) (view_expr e.value)) }
    // Where it is refused, there is none.
    ensures refused { IfErr result (λ f. Refuses f (λ r. (r ≡ refusals.Clash (view_ty value.value.ty) (view_ty value.value.ty))
        × NoneIs (Refers (view_expr value.value)))) }
{
    let Some(adt) = adt_of(&value.ty) else {
        return Err(clash_of(alloc, &value.ty, &value.ty));
    };
    Ok(reference(alloc, adt, value)?)
}
