//! Parts of values, and members of adts.

ghost use Rattle.std.specs.Prelude.{◌≡◌, ◌&&◌, ℕ, IfOk, IfErr, IfSome, IfNone, IsSome, None, Some, option_map};
ghost use Rattle.limbo_types.specs.Types.{Ty as AnyTy};
ghost use Rattle.limbo_types.specs.View.{view_ty};
ghost use Rattle.limbo_layout.specs.View.{view_defs};
ghost use Rattle.limbo_typed.specs.Sound.{IsSettled};
ghost use Rattle.limbo_typed.specs.View.{view_expr, view_optional};
ghost use Rattle.limbo_forms.specs.Forms as forms;
ghost use Rattle.limbo_fields.specs.Fields.{Names};
ghost use Rattle.limbo_refusals.specs.Refusals as refusals;
ghost use Rattle.limbo_refusals.specs.Refusals.{Refuses, NoneIs};
ghost use Rattle.limbo_context.specs.Context.{named_in};
ghost use Rattle.limbo_context.specs.View.{view_context};
ghost use Rattle.limbo_places.specs.Targets.{Selects};
ghost use Rattle.limbo_things.specs.Choosing as choosing;
ghost use Rattle.limbo_things.specs.Choosing.{Tells, HasPart};
ghost use Rattle.limbo_things.specs.Things as things;
ghost use Rattle.limbo_things.specs.Things.{AVariant, PartOfValue, PartOfAdt, PartIs};
ghost use Rattle.limbo_things.specs.ThingView.{view_thing, view_found};

use crate::naming::declared;
use crate::thing::{Thing, or_clash, some, type_named};
use inf_text::Text;
use limbo_context::Context;
use limbo_fields::part_of;
use limbo_forms::is_settled;
use limbo_layout::AdtDef;
use limbo_places::select;
use limbo_refusals::ExprFault;
use limbo_scope::Meaning;
use limbo_typed::TExpr;
use limbo_types::Ty;
use std::alloc::{AllocError, Global};

// What a member of an adt means.
fn meaning_of(context: &Context, adt: u32, name: &Text) -> Option<Meaning>
    ensures { result ≡ named_in (view_context context.now).members adt name.now }
{
    context.member(adt, name)
}

// The member of an adt that is meant, with the object before it, where there is one.
fn adt_member(
    alloc: Global,
    context: &Context,
    object: Option<Box<TExpr>>,
    meaning: Meaning,
) -> Result<Option<Box<Thing>>, AllocError>
    ensures { IfOk result (λ o. view_found o ≡ things.adt_member (view_context context.now) (view_optional object) meaning) }
{
    match meaning {
        Meaning::Function(function) => some(alloc, Thing::Method { function, object }),
        _ => declared(alloc, context, meaning),
    }
}

// The member of this name of an adt.
fn member_at(
    alloc: Global,
    context: &Context,
    adt: u32,
    object: Option<Box<TExpr>>,
    name: &Text,
) -> Result<Option<Box<Thing>>, AllocError>
    ensures { IfOk result (λ o. view_found o ≡ things.member_at (view_context context.now) adt (view_optional object) name.now) }
{
    match meaning_of(context, adt, name) {
        Some(meaning) => adt_member(alloc, context, object, meaning),
        None => Ok(None),
    }
}

// The adt that a type is, as a value or by a `ref`.
#[tactic(auto, using(limbo_types::proofs::View::the_types, crate::proofs::Forms::no_adt))]
fn adt_of(t: &Ty) -> Option<u32>
    ensures { result ≡ things.adt_of (view_ty t.now) }
{
    match t {
        Ty::Adt(adt) => Some(*adt),
        Ty::RefAdt(adt) => Some(*adt),
        Ty::RefPick { adt, .. } => Some(*adt),
        _ => None,
    }
}

// The adt that a type is as a value.
#[tactic(auto, using(limbo_types::proofs::View::the_types, crate::proofs::Forms::no_own_adt))]
fn own_adt(t: &Ty) -> Option<u32>
    ensures { result ≡ choosing.own_adt (view_ty t.now) }
{
    match t {
        Ty::Adt(adt) => Some(*adt),
        _ => None,
    }
}

// Whether nothing is open in the types of a value and of a part of it.
fn are_settled(whole: &Ty, part: &Ty) -> bool
    ensures { result ≡ (forms.is_settled (view_ty whole.now) && forms.is_settled (view_ty part.now)) }
{
    is_settled(whole) && is_settled(part)
}

// Whether a value of a type that is settled has a part of this name, of a type that is settled. Want of numbers is want of memory.
fn has_part(adts: &[AdtDef], of: &Ty, name: &Text) -> Result<bool, AllocError>
    ensures { IfOk result (λ yes. Tells yes (HasPart (view_defs adts.now) name.now (view_ty of.now))) }
{
    match part_of(adts, of, name)? {
        Some(part) => Ok(are_settled(of, part.ty)),
        None => Ok(false),
    }
}

// The part of a value that has one, so that memory alone can lack.
fn selected(
    alloc: Global,
    context: &Context,
    e: Box<TExpr>,
    name: &Text,
) -> Result<Option<Box<Thing>>, AllocError>
    ensures part { IfOk result (λ o. IfSome o
        (λ t. PartOfValue (view_context context.now) name.now (view_expr e.value) (view_thing t.value))) }
    ensures some { IfOk result (λ o. IsSome o) }
{
    match select(alloc, context.adts.defs(), e, name) {
        Ok(part) => some(alloc, Thing::Value(part)),
        Err(_) => Err(AllocError),
    }
}

// A member of the adt of a value.
#[tactic(auto, using(limbo_typed::proofs::View::the_exprs, crate::proofs::Forms::type_is))]
fn member_of_value(
    alloc: Global,
    context: &Context,
    e: Box<TExpr>,
    name: &Text,
) -> Result<Option<Box<Thing>>, AllocError>
    ensures { IfOk result (λ o. view_found o ≡ choosing.adt_member_of_value (view_context context.now) name.now (view_expr e.value)) }
{
    match adt_of(&e.ty) {
        Some(adt) => member_at(alloc, context, adt, Some(e), name),
        None => Ok(None),
    }
}

// A part of a value, and else a member of its adt.
fn part_of_value(
    alloc: Global,
    context: &Context,
    e: Box<TExpr>,
    name: &Text,
) -> Result<Option<Box<Thing>>, AllocError>
    ensures found { IfOk result (λ o. IfSome o
        (λ t. PartOfValue (view_context context.now) name.now (view_expr e.value) (view_thing t.value))) }
    ensures none { IfOk result (λ o. IfNone o (NoneIs (PartOfValue (view_context context.now) name.now (view_expr e.value)))) }
{
    if has_part(context.adts.defs(), &e.ty, name)? {
        return selected(alloc, context, e, name);
    }
    member_of_value(alloc, context, e, name)
}

// The variant of this name of an adt.
fn variant_of(
    alloc: Global,
    context: &Context,
    adt: u32,
    name: &Text,
) -> Result<Option<Box<Thing>>, AllocError>
    ensures found { IfOk result (λ o. IfSome o (λ t. choosing.IsVariant (view_context context.now) adt name.now (view_thing t.value))) }
    ensures none { IfOk result (λ o. IfNone o (NoneIs (choosing.IsVariant (view_context context.now) adt name.now))) }
{
    match context.variant(adt, name)? {
        Some(variant) => some(alloc, Thing::Variant { adt, variant }),
        None => Ok(None),
    }
}

// A member of an adt by its name, and else its variant.
fn part_of_adt(
    alloc: Global,
    context: &Context,
    adt: u32,
    name: &Text,
) -> Result<Option<Box<Thing>>, AllocError>
    ensures found { IfOk result (λ o. IfSome o (λ t. PartOfAdt (view_context context.now) name.now adt (view_thing t.value))) }
    ensures none { IfOk result (λ o. IfNone o (NoneIs (PartOfAdt (view_context context.now) name.now adt))) }
{
    match meaning_of(context, adt, name) {
        Some(meaning) => adt_member(alloc, context, None, meaning),
        None => variant_of(alloc, context, adt, name),
    }
}

// The same of a type by its name.
fn part_of_type(
    alloc: Global,
    context: &Context,
    t: &Ty,
    name: &Text,
) -> Result<Option<Box<Thing>>, AllocError>
    ensures found { IfOk result (λ o. IfSome o
        (λ p. PartIs (view_context context.now) name.now (things.AType (view_ty t.now)) (view_thing p.value))) }
    ensures none { IfOk result (λ o. IfNone o (NoneIs (PartIs (view_context context.now) name.now (things.AType (view_ty t.now))))) }
{
    match own_adt(t) {
        Some(adt) => part_of_adt(alloc, context, adt, name),
        None => Ok(None),
    }
}

// The part of what stands before `.`.
fn part_in(
    alloc: Global,
    context: &Context,
    base: Box<Thing>,
    name: &Text,
) -> Result<Option<Box<Thing>>, AllocError>
    ensures found { IfOk result (λ o. IfSome o
        (λ t. PartIs (view_context context.now) name.now (view_thing base.value) (view_thing t.value))) }
    ensures none { IfOk result (λ o. IfNone o (NoneIs (PartIs (view_context context.now) name.now (view_thing base.value)))) }
{
    match Box::into_inner(base) {
        Thing::Value(e) => part_of_value(alloc, context, e, name),
        Thing::Type(t) => part_of_type(alloc, context, &t, name),
        Thing::Variant { adt, .. } => member_at(alloc, context, adt, None, name),
        _ => Ok(None),
    }
}

/// `base.name`: a part of a value, a member of an adt, or a variant.
///
/// # Errors
/// Refusal 50, and want of memory.
pub fn part(
    alloc: Global,
    context: &Context,
    base: Box<Thing>,
    name: &Text,
) -> Result<Box<Thing>, ExprFault>
    // It is the part of that name.
    ensures found { IfOk result (λ t. PartIs (view_context context.now) name.now (view_thing base.value) (view_thing t.value)) }
    // Where it is refused, there is none.
    ensures refused { IfErr result (λ f. Refuses f (λ r.
        (r ≡ refusals.Clash (things.type_named (view_thing base.value)) (things.type_named (view_thing base.value)))
        × NoneIs (PartIs (view_context context.now) name.now (view_thing base.value)))) }
{
    let ty = type_named(alloc, &base)?;
    let found = part_in(alloc, context, base, name)?;
    or_clash(alloc, found, &ty)
}
