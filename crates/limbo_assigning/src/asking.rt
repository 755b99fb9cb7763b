//! Which values go where a pattern says.

ghost use Rattle.std.specs.Prelude.{◌≡◌, ◌↔◌, IfOk, IsTrue, map, option_map};
ghost use Rattle.limbo_types.specs.View.{view_ty, view_tys, tys_of};
ghost use Rattle.limbo_typed.specs.View.{view_pattern, patterns_of};
ghost use Rattle.limbo_standing.specs.Settling.{stands_variant};
ghost use Rattle.limbo_assigning.specs.Assigning.{Takes};
ghost use Rattle.limbo_assigning.specs.Choosing as choosing;

use limbo_forms::{is_same, is_settled};
use limbo_typed::Pattern;
use limbo_types::{Ty, copy};
use std::alloc::{AllocError, Global};

// Whether a type is a `ref` of a variant, where the `ref` of its adt is asked for.
#[tactic(auto, using(limbo_types::proofs::View::the_types, limbo_standing::proofs::Nodes::no_variant, limbo_standing::proofs::Nodes::no_ref_asked))]
fn stands_variant(asked: &Ty, t: &Ty) -> bool
    ensures { result ≡ stands_variant (view_ty asked.now) (view_ty t.now) }
{
    match asked {
        Ty::RefAdt(number) => match t {
            Ty::RefPick { adt, .. } => number == adt,
            _ => false,
        },
        _ => false,
    }
}

// Whether a value of the first type stands where the second is asked for.
fn stands(t: &Ty, asked: &Ty) -> bool
    ensures { result ≡ choosing.stands (view_ty t.now) (view_ty asked.now) }
{
    is_same(t, asked) || stands_variant(asked, t)
}

#[tactic(auto, using(limbo_typed::proofs::View::the_exprs))]
#[cycle(taking)]
fn takes_value(pattern: &Pattern, t: &Ty) -> bool
    ensures { result ≡ choosing.takes (view_pattern pattern.now) (view_ty t.now) }
{
    match pattern {
        Pattern::Place(place) => stands(t, &place.ty),
        Pattern::Nothing => true,
        Pattern::Tuple(patterns) => takes_parts(patterns, t),
    }
}

#[tactic(auto, using(limbo_types::proofs::View::the_types, crate::proofs::Patterns::takes_no_parts))]
#[cycle(taking)]
fn takes_parts(patterns: &[Pattern], t: &Ty) -> bool
    ensures { result ≡ choosing.takes_parts (patterns_of (map view_pattern patterns.now)) (view_ty t.now) }
{
    match t {
        Ty::Tuple(parts) => take_each(patterns, parts),
        _ => false,
    }
}

#[cycle(taking)]
fn take_each(patterns: &[Pattern], parts: &[Ty]) -> bool
    ensures { result ≡ choosing.take_each (patterns_of (map view_pattern patterns.now)) (view_tys parts.now) }
{
    let mut rest = parts;
    for pattern in patterns {
        let Some((part, more)) = rest.split_first() else {
            return false;
        };
        if !takes_value(pattern, part) {
            return false;
        }
        rest = more;
    }
    rest.is_empty()
}

/// Whether a value of a type that is known goes where a pattern says: each part where it stands for the place's type.
pub fn takes(pattern: &Pattern, t: &Ty) -> bool
    ensures { IsTrue result ↔ Takes (view_pattern pattern.now) (view_ty t.now) }
{
    takes_value(pattern, t)
}

// The type that is asked of a value of a type, if there is one.
#[tactic(auto, using(limbo_typed::proofs::View::the_exprs))]
#[cycle(asking)]
pub(crate) fn asked_of(alloc: Global, pattern: &Pattern, t: &Ty) -> Result<Option<Ty>, AllocError>
    ensures { IfOk result (λ o. option_map view_ty o ≡ choosing.asked (view_pattern pattern.now) (view_ty t.now)) }
{
    match pattern {
        Pattern::Place(place) => {
            if is_settled(t) && stands(t, &place.ty) {
                return Ok(Some(copy(alloc, t)?));
            }
            Ok(Some(copy(alloc, &place.ty)?))
        }
        Pattern::Nothing => {
            if is_settled(t) {
                return Ok(Some(copy(alloc, t)?));
            }
            Ok(None)
        }
        Pattern::Tuple(patterns) => asked_parts(alloc, patterns, t),
    }
}

#[tactic(auto, using(limbo_types::proofs::View::the_types, crate::proofs::Patterns::asks_no_parts))]
#[cycle(asking)]
fn asked_parts(alloc: Global, patterns: &[Pattern], t: &Ty) -> Result<Option<Ty>, AllocError>
    ensures { IfOk result (λ o. option_map view_ty o ≡ choosing.asked_parts (patterns_of (map view_pattern patterns.now)) (view_ty t.now)) }
{
    let Ty::Tuple(parts) = t else {
        return Ok(None);
    };
    match ask_each(alloc, patterns, parts)? {
        Some(asked) => Ok(Some(Ty::Tuple(asked))),
        None => Ok(None),
    }
}

#[cycle(asking)]
fn ask_each(
    alloc: Global,
    patterns: &[Pattern],
    parts: &[Ty],
) -> Result<Option<Vec<Ty>>, AllocError>
    ensures { IfOk result (λ o. option_map (λ ts. view_tys ts.items) o
        ≡ choosing.ask_each (patterns_of (map view_pattern patterns.now)) (view_tys parts.now)) }
{
    let mut asked = Vec::new(alloc);
    let mut rest = parts;
    for pattern in patterns {
        let Some((part, more)) = rest.split_first() else {
            return Ok(None);
        };
        let Some(t) = asked_of(alloc, pattern, part)? else {
            return Ok(None);
        };
        asked.push(t)?;
        rest = more;
    }
    if rest.is_empty() {
        Ok(Some(asked))
    } else {
        Ok(None)
    }
}
