//! The one type of a literal's elements.

ghost use Rattle.std.specs.Prelude.{◌≡◌, IfOk, IfSome, IfNone, None, map, option_map};
ghost use Rattle.limbo_types.specs.Types as types;
ghost use Rattle.limbo_types.specs.View.{view_ty};
ghost use Rattle.limbo_forms.specs.ArgTypes.{arg_types};
ghost use Rattle.limbo_standing.specs.ItemTypes.{item_types};
ghost use Rattle.limbo_standing.specs.Joining as joining;
ghost use Rattle.limbo_standing.specs.Joining.{Joins};
ghost use Rattle.limbo_standing.specs.Settling.{Tells};

use limbo_forms::{is_same, is_settled, ref_of};
use limbo_typed::{Item, TExpr};
use limbo_types::{Ty, copy};
use std::alloc::{AllocError, Global};

// The adt of which both are a `ref`.
fn common_adt(t: &Ty, u: &Ty) -> Option<u32>
    ensures { result ≡ joining.common_adt (view_ty t.now) (view_ty u.now) }
{
    let adt = ref_of(t)?;
    if ref_of(u)? == adt { Some(adt) } else { None }
}

/// Lets elements of one more type stand with those so far, where they have a type together: it answers whether they have one. So far
/// there is no type where all were open.
///
/// # Errors
/// Want of memory.
#[tactic(auto, using(limbo_types::proofs::View::the_types))]
pub fn join(alloc: Global, found: &mut Option<Ty>, t: &Ty) -> Result<bool, AllocError>
    ensures { IfOk result (λ yes. Tells (joining.join (option_map view_ty found.old) (view_ty t.now)) yes (option_map view_ty found.new)) }
{
    if !is_settled(t) {
        return Ok(true);
    }
    match &*found {
        None => {
            *found = Some(copy(alloc, t)?);
            Ok(true)
        }
        Some(so_far) => {
            if is_same(so_far, t) {
                return Ok(true);
            }
            let Some(adt) = common_adt(so_far, t) else {
                return Ok(false);
            };
            *found = Some(Ty::RefAdt(adt));
            Ok(true)
        }
    }
}

/// The type so far, or that of an open `nil`.
#[tactic(auto, using(limbo_types::proofs::View::the_types))]
pub fn or_nil(found: Option<Ty>) -> Ty
    ensures { view_ty result ≡ joining.or_nil (option_map view_ty found) }
{
    match found {
        Some(t) => t,
        None => Ty::Nil,
    }
}

// The type of elements, or nothing where they have none.
fn joined(alloc: Global, elements: &[TExpr]) -> Result<Option<Ty>, AllocError>
    ensures { IfOk result (λ t. joining.joined None (arg_types elements.now) ≡ option_map view_ty t) }
{
    let mut found = None;
    for element in elements {
        if !join(alloc, &mut found, &element.ty)? {
            return Ok(None);
        }
    }
    Ok(Some(or_nil(found)))
}

/// The type of a literal's elements: the least for which each stands, open ones aside, so the `ref` of an adt for those of different
/// variants, and that of an open `nil` where all are open. There is none where two can't stand for one type.
///
/// # Errors
/// Want of memory.
pub fn element_type(alloc: Global, elements: &[TExpr]) -> Result<Option<Ty>, AllocError>
    // It is the type of the elements.
    ensures found { IfOk result (λ t. IfSome t (λ t. Joins (arg_types elements.now) (view_ty t))) }
    // Where there is none, they have no type.
    ensures none { IfOk result (λ t. IfNone t ((u : types.Ty) → Joins (arg_types elements.now) u → ⊥)) }
{
    joined(alloc, elements)
}

// The type of an array's elements, or nothing where they have none.
fn joined_items(
    alloc: Global,
    items: &[Item],
    rest: Option<&TExpr>,
) -> Result<Option<Ty>, AllocError>
    ensures { IfOk result (λ t. joining.joined None (item_types items.now rest.entry) ≡ option_map view_ty t) }
{
    let mut found = None;
    for item in items {
        if !join(alloc, &mut found, &item.value.ty)? {
            return Ok(None);
        }
    }
    if let Some(value) = rest {
        if !join(alloc, &mut found, &value.ty)? {
            return Ok(None);
        }
    }
    Ok(Some(or_nil(found)))
}

/// The type of the elements of an array with its elements: of those that have an index, and of the one that stands at each other
/// index, if there is one. It is the type of them all as `element_type` gives it.
///
/// # Errors
/// Want of memory.
pub fn item_type(
    alloc: Global,
    items: &[Item],
    rest: Option<&TExpr>,
) -> Result<Option<Ty>, AllocError>
    // It is the type of the elements.
    ensures found { IfOk result (λ t. IfSome t (λ t. Joins (item_types items.now rest.entry) (view_ty t))) }
    // Where there is none, they have no type.
    ensures none { IfOk result (λ t. IfNone t ((u : types.Ty) → Joins (item_types items.now rest.entry) u → ⊥)) }
{
    joined_items(alloc, items, rest)
}
