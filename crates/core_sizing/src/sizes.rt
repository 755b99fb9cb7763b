//! What expressions leave of so many bytes.

ghost use Rattle.std.specs.Prelude.{◌≡◌, ◌⊎◌, ◌+◌, ◌<◌, ◌≤◌, MatchOption, map, max};
ghost use Rattle.limbo_types.specs.View.{view_ty};
ghost use Rattle.limbo_layout.specs.View.{view_defs};
ghost use Rattle.limbo_typed.specs.View.{view_expr, view_exprs, view_item, view_node, view_optional, view_pattern, view_place};
ghost use Rattle.limbo_typed.specs.View.{view_place_node, items_of, patterns_of};
ghost use Rattle.core_frames.specs.Sizes.{expr_size, exprs_size, greatest, held_size, inner_size, largest_frame, node_size};
ghost use Rattle.core_frames.specs.Sizes.{optional_size, pattern_size, patterns_size, place_size, rest_alone, rest_held, way_size};
ghost use Rattle.core_sizing.specs.Sizes.{alone, held, parts_size};

use crate::holding::may_hold;
use limbo_typed::{Item, Pattern, Place, PlaceNode, TExpr, TNode};
use limbo_types::Ty;
use value_extents::Extents;

// What a node counts besides its value, and what the array of an initialiser counts with it.
const NODE: u32 = 16;

const ARRAY: u32 = 24;

// What the module and the format of a print count.
const PRINT: u32 = 48;

/// What is left of so many bytes behind a node of this type, if it fits.
pub(crate) fn node_leaves(extents: &Extents<'_>, ty: &Ty, budget: u32) -> Option<u32>
    requires { budget ≤ largest_frame }
    ensures { MatchOption result (budget < node_size (view_defs extents.now) (view_ty ty.now))
        (λ rest. rest + node_size (view_defs extents.now) (view_ty ty.now) ≡ budget) }
{
    let size = extents.size(ty)?;
    budget.checked_sub(size.next_multiple_of(8) + NODE)
}

/// What is left behind an expression.
#[cycle(sizes)]
pub(crate) fn expr_leaves(extents: &Extents<'_>, e: &TExpr, budget: u32) -> Option<u32>
    requires { budget ≤ largest_frame }
    ensures { MatchOption result (budget < expr_size (view_defs extents.now) (view_expr e.now))
        (λ rest. rest + expr_size (view_defs extents.now) (view_expr e.now) ≡ budget) }
{
    inner_leaves(extents, &e.ty, &e.node, budget)
}

// What is left behind a node and what it is made of. A read, an update and an initialiser have no node of their type.
#[cycle(sizes)]
fn inner_leaves(extents: &Extents<'_>, ty: &Ty, node: &TNode, budget: u32) -> Option<u32>
    requires { budget ≤ largest_frame }
    ensures { MatchOption result (budget < inner_size (view_defs extents.now) (view_ty ty.now) (view_node node.now))
        (λ rest. rest + inner_size (view_defs extents.now) (view_ty ty.now) (view_node node.now) ≡ budget) }
{
    match node {
        TNode::Read(place) => place_leaves(extents, place, budget),
        TNode::Update { place, value, .. } => {
            let rest = node_leaves(extents, &place.ty, budget)?;
            let rest = place_leaves(extents, place, rest)?;
            expr_leaves(extents, value, rest)
        }
        TNode::Step { place, .. } => {
            let rest = node_leaves(extents, &place.ty, budget)?;
            place_leaves(extents, place, rest)
        }
        TNode::Filled {
            length,
            items,
            rest,
        } => {
            let left = budget.checked_sub(ARRAY)?;
            let left = optional_leaves(extents, length, left)?;
            let elements = items_leave(extents, items, left)?;
            let elements = other_leaves(extents, rest, left, elements)?;
            elements.rest.checked_sub(elements.greatest)
        }
        _ => {
            let rest = node_leaves(extents, ty, budget)?;
            parts_leave(extents, node, rest)
        }
    }
}

// What is left behind what another node is made of.
#[cycle(sizes)]
fn parts_leave(extents: &Extents<'_>, node: &TNode, budget: u32) -> Option<u32>
    requires { budget ≤ largest_frame }
    ensures { MatchOption result (budget < parts_size (view_defs extents.now) (view_node node.now))
        (λ rest. rest + parts_size (view_defs extents.now) (view_node node.now) ≡ budget) }
{
    match node {
        TNode::Part { whole, .. } => expr_leaves(extents, whole, budget),
        TNode::Apply { args, .. } => exprs_leave(extents, args, budget),
        TNode::Lazy { left, right, .. } => two_leave(extents, left, right, budget),
        TNode::Assign { pattern, value } => {
            let rest = pattern_leaves(extents, pattern, budget)?;
            expr_leaves(extents, value, rest)
        }
        TNode::Copy { array, from, value } => {
            let rest = expr_leaves(extents, array, budget)?;
            two_leave(extents, from, value, rest)
        }
        TNode::Call { args, .. } => exprs_leave(extents, args, budget),
        TNode::Print { args, .. } => {
            let rest = budget.checked_sub(PRINT)?;
            exprs_leave(extents, args, rest)
        }
        TNode::Load { path, .. } => expr_leaves(extents, path, budget),
        _ => Some(budget),
    }
}

// What is left behind two expressions.
#[cycle(sizes)]
fn two_leave(extents: &Extents<'_>, first: &TExpr, second: &TExpr, budget: u32) -> Option<u32>
    requires { budget ≤ largest_frame }
    ensures { MatchOption result
        (budget < expr_size (view_defs extents.now) (view_expr first.now) + expr_size (view_defs extents.now) (view_expr second.now))
        (λ rest. rest + (expr_size (view_defs extents.now) (view_expr first.now)
        + expr_size (view_defs extents.now) (view_expr second.now)) ≡ budget) }
{
    let rest = expr_leaves(extents, first, budget)?;
    expr_leaves(extents, second, rest)
}

// What is left behind expressions.
#[cycle(sizes)]
fn exprs_leave(extents: &Extents<'_>, es: &[TExpr], budget: u32) -> Option<u32>
    requires { budget ≤ largest_frame }
    ensures { MatchOption result (budget < exprs_size (view_defs extents.now) (view_exprs es.now))
        (λ rest. rest + exprs_size (view_defs extents.now) (view_exprs es.now) ≡ budget) }
{
    let mut rest = budget;
    for e in es {
        rest = expr_leaves(extents, e, rest)?;
    }
    Some(rest)
}

// What is left behind an expression that may be absent.
#[cycle(sizes)]
fn optional_leaves(extents: &Extents<'_>, e: &Option<Box<TExpr>>, budget: u32) -> Option<u32>
    requires { budget ≤ largest_frame }
    ensures { MatchOption result (budget < optional_size (view_defs extents.now) (view_optional e.now))
        (λ rest. rest + optional_size (view_defs extents.now) (view_optional e.now) ≡ budget) }
{
    match e {
        None => Some(budget),
        Some(e) => expr_leaves(extents, e, budget),
    }
}

// What elements of an initialiser come to: what is left behind those that may hold references, and the greatest of the others.
#[derive(Clone, Copy)]
struct Elements {
    rest: u32,
    greatest: u32,
}

// One element more, where all are laid into so many bytes: one that holds nothing needs no more than the greatest.
#[cycle(sizes)]
fn element_leaves(
    extents: &Extents<'_>,
    e: &TExpr,
    budget: u32,
    before: Elements,
) -> Option<Elements>
    requires budget { budget ≤ largest_frame }
    requires rest { before.rest ≤ budget }
    ensures { MatchOption result
        ((before.rest < held (view_defs extents.now) (view_expr e.now)) ⊎ (budget < alone (view_defs extents.now) (view_expr e.now)))
        (λ elements. (elements.rest + held (view_defs extents.now) (view_expr e.now) ≡ before.rest)
        × (elements.greatest ≡ max before.greatest (alone (view_defs extents.now) (view_expr e.now)))) }
{
    if may_hold(extents, e) {
        let rest = expr_leaves(extents, e, before.rest)?;
        Some(Elements {
            rest,
            greatest: before.greatest,
        })
    } else {
        let rest = expr_leaves(extents, e, budget)?;
        Some(Elements {
            rest: before.rest,
            greatest: before.greatest.max(budget - rest),
        })
    }
}

// The elements that an initialiser names.
#[cycle(sizes)]
fn items_leave(extents: &Extents<'_>, items: &[Item], budget: u32) -> Option<Elements>
    requires { budget ≤ largest_frame }
    ensures { MatchOption result
        (budget < held_size (view_defs extents.now) (items_of (map view_item items.now))
        + greatest (view_defs extents.now) (items_of (map view_item items.now)))
        (λ elements. (elements.rest + held_size (view_defs extents.now) (items_of (map view_item items.now)) ≡ budget)
        × (elements.greatest ≡ greatest (view_defs extents.now) (items_of (map view_item items.now)))) }
{
    let mut elements = Elements {
        rest: budget,
        greatest: 0,
    };
    for item in items {
        elements = element_leaves(extents, &item.value, budget, elements)?;
    }
    Some(elements)
}

// The element of `*`.
#[cycle(sizes)]
fn other_leaves(
    extents: &Extents<'_>,
    e: &Option<Box<TExpr>>,
    budget: u32,
    before: Elements,
) -> Option<Elements>
    requires budget { budget ≤ largest_frame }
    requires rest { before.rest ≤ budget }
    ensures { MatchOption result
        ((before.rest < rest_held (view_defs extents.now) (view_optional e.now))
        ⊎ (budget < rest_alone (view_defs extents.now) (view_optional e.now)))
        (λ elements. (elements.rest + rest_held (view_defs extents.now) (view_optional e.now) ≡ before.rest)
        × (elements.greatest ≡ max before.greatest (rest_alone (view_defs extents.now) (view_optional e.now)))) }
{
    match e {
        None => Some(before),
        Some(e) => element_leaves(extents, e, budget, before),
    }
}

// What is left behind a place and what leads to it.
#[cycle(sizes)]
fn place_leaves(extents: &Extents<'_>, place: &Place, budget: u32) -> Option<u32>
    requires { budget ≤ largest_frame }
    ensures { MatchOption result (budget < place_size (view_defs extents.now) (view_place place.now))
        (λ rest. rest + place_size (view_defs extents.now) (view_place place.now) ≡ budget) }
{
    let rest = node_leaves(extents, &place.ty, budget)?;
    way_leaves(extents, &place.at, rest)
}

#[cycle(sizes)]
fn way_leaves(extents: &Extents<'_>, place: &PlaceNode, budget: u32) -> Option<u32>
    requires { budget ≤ largest_frame }
    ensures { MatchOption result (budget < way_size (view_defs extents.now) (view_place_node place.now))
        (λ rest. rest + way_size (view_defs extents.now) (view_place_node place.now) ≡ budget) }
{
    match place {
        PlaceNode::Local(_) => Some(budget),
        PlaceNode::Global(_) => Some(budget),
        PlaceNode::Field { whole, .. } => place_leaves(extents, whole, budget),
        PlaceNode::Element { array, index } => two_leave(extents, array, index, budget),
        PlaceNode::Character { text, index } => {
            let rest = place_leaves(extents, text, budget)?;
            expr_leaves(extents, index, rest)
        }
        PlaceNode::Target { reference } => expr_leaves(extents, reference, budget),
    }
}

// What is left behind the places that are written.
#[cycle(sizes)]
fn pattern_leaves(extents: &Extents<'_>, pattern: &Pattern, budget: u32) -> Option<u32>
    requires { budget ≤ largest_frame }
    ensures { MatchOption result (budget < pattern_size (view_defs extents.now) (view_pattern pattern.now))
        (λ rest. rest + pattern_size (view_defs extents.now) (view_pattern pattern.now) ≡ budget) }
{
    match pattern {
        Pattern::Place(place) => place_leaves(extents, place, budget),
        Pattern::Nothing => Some(budget),
        Pattern::Tuple(parts) => patterns_leave(extents, parts, budget),
    }
}

#[cycle(sizes)]
fn patterns_leave(extents: &Extents<'_>, parts: &[Pattern], budget: u32) -> Option<u32>
    requires { budget ≤ largest_frame }
    ensures { MatchOption result (budget < patterns_size (view_defs extents.now) (patterns_of (map view_pattern parts.now)))
        (λ rest. rest + patterns_size (view_defs extents.now) (patterns_of (map view_pattern parts.now)) ≡ budget) }
{
    let mut rest = budget;
    for part in parts {
        rest = pattern_leaves(extents, part, rest)?;
    }
    Some(rest)
}
