//! What references name, and parts of values.

ghost use Rattle.std.specs.Prelude.{◌≡◌, ℕ, IfOk, IfErr, IfSome, IfNone};
ghost use Rattle.limbo_types.specs.Types as types;
ghost use Rattle.limbo_types.specs.View.{view_ty};
ghost use Rattle.limbo_layout.specs.View.{view_defs};
ghost use Rattle.limbo_typed.specs.Sound.{IsSettled};
ghost use Rattle.limbo_typed.specs.View.{view_expr};
ghost use Rattle.limbo_fields.specs.Fields.{Names};
ghost use Rattle.limbo_refusals.specs.Refusals as refusals;
ghost use Rattle.limbo_refusals.specs.Refusals.{Refuses, NoneIs};
ghost use Rattle.limbo_places.specs.Targets.{Dereferences, Selects};
ghost use Rattle.limbo_places.specs.Choosing as choosing;

use crate::building::{boxed, copied, place_of, read};
use inf_text::Text;
use limbo_fields::part_of;
use limbo_forms::{is_settled, ref_of};
use limbo_layout::AdtDef;
use limbo_refusals::{ExprFault, clash_of};
use limbo_typed::{Place, PlaceNode, TExpr, TNode};
use limbo_types::{Ty, copy};
use std::alloc::{AllocError, Global};

/// `*reference`
///
/// # Errors
/// Refusal 50, and want of memory.
pub fn dereference(alloc: Global, reference: Box<TExpr>) -> Result<Box<TExpr>, ExprFault>
    // It is what the reference names.
    ensures typed { IfOk result (λ e. Dereferences (view_expr reference.value) (view_expr e.value)) }
    // Where it is refused, it names nothing.
    ensures refused { IfErr result (λ f. Refuses f (λ r. (r ≡ refusals.Clash (view_ty reference.value.ty) (view_ty reference.value.ty))
        × NoneIs (Dereferences (view_expr reference.value)))) }
{
    let Some(adt) = ref_of(&reference.ty) else {
        return Err(clash_of(alloc, &reference.ty, &reference.ty));
    };
    Ok(read(alloc, &Ty::Adt(adt), PlaceNode::Target { reference })?)
}

// A part of a value.
#[derive(Drop)]
struct Chosen {
    part: u32,
    ty: Box<Ty>,
}

// The part that a name is, where its type and that of the value are settled. Want of numbers is want of memory.
fn choose(
    alloc: Global,
    adts: &[AdtDef],
    of: &Ty,
    name: &Text,
) -> Result<Option<Chosen>, AllocError>
    ensures found { IfOk result (λ o. IfSome o (λ c. Names (view_defs adts.now) name.now (view_ty of.now) c.part (view_ty c.ty.value)
        × IsSettled (view_ty c.ty.value) × IsSettled (view_ty of.now))) }
    ensures absent { IfOk result (λ o. IfNone o ((part : ℕ) (t : types.Ty)
        → Names (view_defs adts.now) name.now (view_ty of.now) part t → IsSettled t → IsSettled (view_ty of.now) → ⊥)) }
{
    if !is_settled(of) {
        return Ok(None);
    }
    let Some(part) = part_of(adts, of, name)? else {
        return Ok(None);
    };
    if !is_settled(part.ty) {
        return Ok(None);
    }
    let Ok(number) = u32::try_from(part.number) else {
        return Err(AllocError);
    };
    Ok(Some(Chosen {
        part: number,
        ty: copied(alloc, part.ty)?,
    }))
}

// A part of a value, in the place where it stands, if it stands in one.
#[tactic(auto, using(limbo_typed::proofs::View::the_exprs))]
fn part_in(alloc: Global, whole: Box<TExpr>, part: u32, t: &Ty) -> Result<Box<TExpr>, AllocError>
    ensures { IfOk result (λ e. view_expr e.value ≡ choosing.part_in (view_expr whole.value) part (view_ty t.now)) }
{
    match place_of(whole) {
        Ok(whole) => read(alloc, t, PlaceNode::Field { whole, part }),
        Err(whole) => boxed(alloc, copy(alloc, t)?, TNode::Part { whole, part }),
    }
}

// A part of what a reference names.
#[tactic(auto, using(limbo_types::proofs::View::the_types, limbo_typed::proofs::View::the_exprs))]
fn part_of_target(
    alloc: Global,
    adt: u32,
    reference: Box<TExpr>,
    part: u32,
    t: &Ty,
) -> Result<Box<TExpr>, AllocError>
    ensures { IfOk result (λ e. view_expr e.value ≡ choosing.part_of_target adt (view_expr reference.value) part (view_ty t.now)) }
{
    let target = Place {
        ty: Ty::Adt(adt),
        at: PlaceNode::Target { reference },
    };
    let whole = Box::new(alloc, target)?;
    read(alloc, t, PlaceNode::Field { whole, part })
}

// A part of a value, or of what a reference names.
#[tactic(auto, using(limbo_typed::proofs::View::the_exprs))]
fn part_at(alloc: Global, base: Box<TExpr>, part: u32, t: &Ty) -> Result<Box<TExpr>, AllocError>
    ensures { IfOk result (λ e. view_expr e.value ≡ choosing.part_at (view_expr base.value) part (view_ty t.now)) }
{
    match ref_of(&base.ty) {
        Some(adt) => part_of_target(alloc, adt, base, part, t),
        None => part_in(alloc, base, part, t),
    }
}

/// `base.name`: a part of a tuple or of an adt's value, or of the value that a `ref` names.
///
/// # Errors
/// Refusal 50, and want of memory.
pub fn select(
    alloc: Global,
    adts: &[AdtDef],
    base: Box<TExpr>,
    name: &Text,
) -> Result<Box<TExpr>, ExprFault>
    // It is the part of that name.
    ensures typed { IfOk result (λ e. Selects (view_defs adts.now) name.now (view_expr base.value) (view_expr e.value)) }
    // Where it is refused, there is none.
    ensures refused { IfErr result (λ f. Refuses f (λ r. (r ≡ refusals.Clash (view_ty base.value.ty) (view_ty base.value.ty))
        × NoneIs (Selects (view_defs adts.now) name.now (view_expr base.value)))) }
{
    let Some(chosen) = choose(alloc, adts, &base.ty, name)? else {
        return Err(clash_of(alloc, &base.ty, &base.ty));
    };
    Ok(part_at(alloc, base, chosen.part, &chosen.ty)?)
}
