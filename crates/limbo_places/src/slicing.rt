//! Parts of strings and arrays between two bounds.

ghost use Rattle.std.specs.Prelude.{◌≡◌, ◌++◌, IfOk, IfErr, map, option_map};
ghost use Rattle.limbo_types.specs.Types as types;
ghost use Rattle.limbo_types.specs.View.{view_ty};
ghost use Rattle.limbo_typed.specs.Typed.{NoExprs, MoreExprs};
ghost use Rattle.limbo_typed.specs.View.{view_expr, view_exprs, view_optional};
ghost use Rattle.limbo_refusals.specs.Refusals as refusals;
ghost use Rattle.limbo_refusals.specs.Refusals.{Refuses, NoneIs};
ghost use Rattle.limbo_places.specs.Slices as slices;
ghost use Rattle.limbo_places.specs.Slices.{Slices, Hinders};
ghost use Rattle.limbo_places.specs.Choosing as choosing;

use crate::building::{boxed, copied, put};
use limbo_forms::{is_int, is_settled};
use limbo_refusals::{ExprFault, clash_of};
use limbo_typed::{Operation, Sequence, TExpr, TNode};
use limbo_types::Ty;
use std::alloc::{AllocError, Global};

// What has parts where a value is of this type: a string or an array, if it is known of what.
#[tactic(auto, using(limbo_types::proofs::View::the_types, crate::proofs::Forms::no_sequence))]
fn sliced_as(t: &Ty) -> Option<Sequence>
    ensures { result ≡ choosing.sliced_as (view_ty t.now) }
{
    if !is_settled(t) {
        return None;
    }
    match t {
        Ty::Chars => Some(Sequence::Chars),
        Ty::Array(_) => Some(Sequence::Array),
        _ => None,
    }
}

// The type of a bound that is no int.
#[tactic(auto, using(limbo_typed::proofs::View::the_exprs))]
fn no_int(bound: &Option<Box<TExpr>>) -> Option<&Ty>
    ensures { option_map (λ t. view_ty t.now) result ≡ choosing.no_int (view_optional bound.now) }
{
    match bound {
        Some(e) => { if is_int(&e.ty) { None } else { Some(&e.ty) } }
        None => None,
    }
}

// The operands of a slice: the whole, and the bounds that are written.
#[tactic(auto, using(limbo_typed::proofs::View::the_exprs))]
fn operands(
    alloc: Global,
    base: Box<TExpr>,
    from: Option<Box<TExpr>>,
    to: Option<Box<TExpr>>,
) -> Result<Vec<TExpr>, AllocError>
    ensures { IfOk result (λ es. view_exprs es.items
        ≡ MoreExprs (view_expr base.value) (slices.with_bound (view_optional from) (slices.with_bound (view_optional to) NoExprs))) }
{
    let mut operands = Vec::new(alloc);
    put(&mut operands, base)?;
    if let Some(bound) = from {
        put(&mut operands, bound)?;
    }
    if let Some(bound) = to {
        put(&mut operands, bound)?;
    }
    Ok(operands)
}

// A slice of what can be sliced.
#[tactic(auto, using(limbo_typed::proofs::View::the_exprs))]
fn sliced(
    alloc: Global,
    of: Sequence,
    base: Box<TExpr>,
    from: Option<Box<TExpr>>,
    to: Option<Box<TExpr>>,
) -> Result<Box<TExpr>, AllocError>
    ensures { IfOk result
        (λ e. view_expr e.value ≡ slices.slice of (view_expr base.value) (view_optional from) (view_optional to)) }
{
    let ty = copied(alloc, &base.ty)?;
    let operation = Operation::Slice {
        of,
        has_from: from.is_some(),
        has_to: to.is_some(),
    };
    let args = operands(alloc, base, from, to)?;
    boxed(alloc, Box::into_inner(ty), TNode::Apply { operation, args })
}

/// `base[from:to]`: the part of a string or an array between two bounds, of which either may be absent.
///
/// # Errors
/// Refusal 50, and want of memory.
pub fn slice(
    alloc: Global,
    base: Box<TExpr>,
    from: Option<Box<TExpr>>,
    to: Option<Box<TExpr>>,
) -> Result<Box<TExpr>, ExprFault>
    // It is the part between the bounds.
    ensures typed { IfOk result (λ e. Slices (view_expr base.value) (view_optional from) (view_optional to) (view_expr e.value)) }
    // Where it is refused, this type keeps it from being one.
    ensures refused { IfErr result (λ f. Refuses f (λ r.
        ((t : types.Ty) × Hinders (view_expr base.value) (view_optional from) (view_optional to) t × (r ≡ refusals.Clash t types.Int))
        × NoneIs (Slices (view_expr base.value) (view_optional from) (view_optional to)))) }
{
    let Some(of) = sliced_as(&base.ty) else {
        return Err(clash_of(alloc, &base.ty, &Ty::Int));
    };
    if let Some(t) = no_int(&from) {
        return Err(clash_of(alloc, t, &Ty::Int));
    }
    if let Some(t) = no_int(&to) {
        return Err(clash_of(alloc, t, &Ty::Int));
    }
    Ok(sliced(alloc, of, base, from, to)?)
}
