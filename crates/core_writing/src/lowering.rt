//! The code of expressions.

ghost use Rattle.std.specs.Prelude.{◌≡◌, ◌+◌, ◌<◌, ◌≤◌, ◌^◌, IfOk, if◌then◌else◌, length, max};
ghost use Rattle.limbo_types.specs.View.{view_ty};
ghost use Rattle.limbo_layout.specs.Layout.{limit};
ghost use Rattle.limbo_layout.specs.View.{view_defs};
ghost use Rattle.limbo_typed.specs.View.{view_expr, view_optional, view_place, view_place_node};
ghost use Rattle.limbo_meaning.specs.Operations.{size_of};
ghost use Rattle.limbo_meaning.specs.Trees.{Fill, Lazy, Update};
ghost use Rattle.limbo_meaning.specs.Program as program;
ghost use Rattle.limbo_meaning.specs.Program.{length_term, operands_at, term_of, terms_if, way_of};
ghost use Rattle.limbo_meaning.specs.Evaluation.{may_hold as tree_holds};
ghost use Rattle.limbo_meaning.specs.Operations as operations;
ghost use Rattle.core_code.specs.Terms as terms;
ghost use Rattle.core_code.specs.Terms.{lower, lower_all};
ghost use Rattle.core_frames.specs.Sizes.{expr_size, greatest, held_size, optional_size, place_size, rest_alone, rest_held};
ghost use Rattle.core_parts.specs.Lowered.{view_lowered, view_lowered_all};
ghost use Rattle.core_writing.specs.Completed.{completed, got, widened};
ghost use Rattle.core_writing.specs.Initialisers.{alone, filled_size, view_items};
ghost use Rattle.core_writing.specs.Operands.{operands_in, operands_size, terms_in, view_operand};

use crate::completing::complete;
use crate::elements::{indices_of, known_length, nothing_stored, slots_from, store_element};
use crate::operands::{Operand, operands_of, place_operands};
use core_data::Work;
use core_parts::{
    Change, Lowered, LoweredAll, chain_others, connect, fill, give, item_of, repeat_others, update,
    way_of,
};
use core_sizing::may_hold;
use limbo_typed::{Connective, Given, Item, Operation, Place, TExpr, TNode};
use limbo_types::Ty;
use limbo_values::Kind;
use std::alloc::{AllocError, Global};
use value_extents::Extents;

// A byte that is printed stands there as an int.
fn widen(alloc: Global, ty: &Ty, l: Lowered) -> Result<Lowered, AllocError>
    requires { l.free + 1 < 2 ^ 32 }
    ensures { IfOk result (λ w. view_lowered w ≡ widened (view_ty ty.now) (view_lowered l)) }
{
    match ty {
        Ty::Byte => {
            let mut all = LoweredAll::new(alloc, l.free);
            all.add(l)?;
            let convert = Operation::Convert {
                from: Kind::Byte,
                to: Kind::Int,
            };
            let w = give(alloc, all, Ty::Int, Work::Operate(convert), 0)?;
            Ok(w)
        }
        _ => Ok(l),
    }
}

// How many references an operation gets.
fn references_got(extents: &Extents<'_>, ty: &Ty, operation: Operation) -> u32
    requires { size_of (view_defs extents.now) (view_ty ty.now) ≤ limit }
    ensures { result ≡ got (view_defs extents.now) (view_ty ty.now) operation }
{
    match operation {
        Operation::Tuple => 0,
        Operation::Adt { .. } => 0,
        _ => extents.count(ty),
    }
}

// The code of an operand.
#[cycle(lowering)]
fn lower_operand(
    alloc: Global,
    extents: &Extents<'_>,
    lo: u32,
    operand: Operand<'_>,
) -> Result<Lowered, AllocError>
    requires { lo + expr_size (view_defs extents.now) (view_expr operand.expr.now) ≤ limit }
    ensures { IfOk result (λ l. view_lowered l ≡ lower (view_defs extents.now) lo (view_operand operand.entry)) }
{
    let l = lower_expr(alloc, extents, lo, operand.expr)?;
    if operand.printed {
        let w = widen(alloc, &operand.expr.ty, l)?;
        Ok(w)
    } else {
        Ok(l)
    }
}

// The code of operands in a row.
#[cycle(lowering)]
fn lower_operands(
    alloc: Global,
    extents: &Extents<'_>,
    lo: u32,
    operands: &[Operand<'_>],
) -> Result<LoweredAll, AllocError>
    requires { lo + operands_size (view_defs extents.now) operands.now ≤ limit }
    ensures told { IfOk result (λ l. view_lowered_all l ≡ lower_all (view_defs extents.now) lo (terms_in operands.now)) }
    ensures free { IfOk result (λ l. l.free ≤ lo + operands_size (view_defs extents.now) operands.now) }
    ensures count { IfOk result (λ l. length l.values.items ≡ length operands.now) }
{
    let mut all = LoweredAll::new(alloc, lo);
    for operand in operands {
        let l = lower_operand(alloc, extents, all.free, *operand)?;
        all.add(l)?;
    }
    Ok(all)
}

// The code of a node behind its operands.
#[cycle(lowering)]
fn lower_node(
    alloc: Global,
    extents: &Extents<'_>,
    lo: u32,
    e: &TExpr,
) -> Result<Lowered, AllocError>
    requires { lo + expr_size (view_defs extents.now) (view_expr e.now) ≤ limit }
    ensures { IfOk result (λ l. view_lowered l ≡ completed (view_defs extents.now) (term_of (view_expr e.now))
        (lower_all (view_defs extents.now) lo (operands_in (term_of (view_expr e.now))))) }
{
    let operands = operands_of(alloc, e)?;
    let all = lower_operands(alloc, extents, lo, &operands)?;
    let l = complete(alloc, extents, e, all)?;
    Ok(l)
}

// The code of `&&` and `||`.
#[cycle(lowering)]
fn lower_lazy(
    alloc: Global,
    extents: &Extents<'_>,
    lo: u32,
    connective: Connective,
    left: &TExpr,
    right: &TExpr,
) -> Result<Lowered, AllocError>
    requires { lo + (16 + (expr_size (view_defs extents.now) (view_expr left.now)
        + expr_size (view_defs extents.now) (view_expr right.now))) ≤ limit }
    ensures { IfOk result (λ l. view_lowered l ≡ lower (view_defs extents.now) lo
        (Lazy connective (term_of (view_expr left.now)) (term_of (view_expr right.now)))) }
{
    let first = lower_expr(alloc, extents, lo, left)?;
    let second = lower_expr(alloc, extents, first.free + 1, right)?;
    let held = may_hold(extents, right);
    let l = connect(connective, held, first, second)?;
    Ok(l)
}

// The code of a place that is read and written.
#[cycle(lowering)]
fn lower_update(
    alloc: Global,
    extents: &Extents<'_>,
    lo: u32,
    operation: Operation,
    given: Given,
    place: &Place,
    others: &[Operand<'_>],
) -> Result<Lowered, AllocError>
    requires { lo + (16 + (place_size (view_defs extents.now) (view_place place.now)
        + operands_size (view_defs extents.now) others.now)) ≤ limit }
    ensures { IfOk result (λ l. view_lowered l ≡ lower (view_defs extents.now) lo (Update operation given (view_ty place.now.ty)
        (way_of (view_place_node place.now.at)) (operands_at (view_place_node place.now.at)) (terms_in others.now))) }
{
    let operands = place_operands(alloc, &place.at)?;
    let first = lower_operands(alloc, extents, lo, &operands)?;
    let second = lower_operands(alloc, extents, first.free + 1, others)?;
    let way = way_of(alloc, &place.at)?;
    let change = Change {
        operation,
        given,
        ty: &place.ty,
        way: &way,
        old: extents.count(&place.ty),
        new: references_got(extents, &place.ty, operation),
    };
    let l = update(alloc, &change, first, second)?;
    Ok(l)
}

// The code of an initialiser's length.
#[cycle(lowering)]
#[tactic(auto, using(limbo_typed::proofs::View::the_exprs))]
fn lower_length(
    alloc: Global,
    extents: &Extents<'_>,
    lo: u32,
    length: &Option<Box<TExpr>>,
    items: &[Item],
) -> Result<Lowered, AllocError>
    requires { lo + (1 + optional_size (view_defs extents.now) (view_optional length.now)) ≤ limit }
    ensures { IfOk result (λ l. view_lowered l
        ≡ lower (view_defs extents.now) lo (length_term (view_optional length.now) (view_items items.now))) }
{
    match length {
        Some(e) => {
            let l = lower_expr(alloc, extents, lo, e)?;
            Ok(l)
        }
        None => {
            let l = known_length(alloc, lo, items)?;
            Ok(l)
        }
    }
}

// Where the slots end of an element that holds nothing.
#[cycle(lowering)]
fn element_end(
    alloc: Global,
    extents: &Extents<'_>,
    shared: u32,
    e: &TExpr,
) -> Result<u32, AllocError>
    requires { shared + alone (view_defs extents.now) (view_expr e.now) ≤ limit }
    ensures { IfOk result (λ n. n ≡ (if tree_holds (view_defs extents.now) (term_of (view_expr e.now)) then shared
        else (lower (view_defs extents.now) shared (term_of (view_expr e.now))).free)) }
{
    if may_hold(extents, e) {
        return Ok(shared);
    }
    let l = lower_expr(alloc, extents, shared, e)?;
    Ok(l.free)
}

// Where the shared slots of an initialiser end.
#[cycle(lowering)]
#[tactic(auto, using(limbo_typed::proofs::View::the_exprs))]
fn shared_end(
    alloc: Global,
    extents: &Extents<'_>,
    shared: u32,
    items: &[Item],
    rest: &Option<Box<TExpr>>,
) -> Result<u32, AllocError>
    requires { shared + max (greatest (view_defs extents.now) (view_items items.now))
        (rest_alone (view_defs extents.now) (view_optional rest.now)) ≤ limit }
    ensures { IfOk result (λ n. n ≡ max (terms.items_end (view_defs extents.now) shared (program.items_of (view_items items.now)))
        (terms.rest_end (view_defs extents.now) shared (terms_if (view_optional rest.now)))) }
{
    let mut end = shared;
    for item in items {
        let own = element_end(alloc, extents, shared, &item.value)?;
        end = end.max(own);
    }
    match rest {
        None => Ok(end),
        Some(e) => {
            let own = element_end(alloc, extents, shared, e)?;
            Ok(end.max(own))
        }
    }
}

// The code of an initialiser's elements, each of which is stored.
#[cycle(lowering)]
fn lower_items(
    alloc: Global,
    extents: &Extents<'_>,
    ty: &Ty,
    array: u32,
    shared: u32,
    lo: u32,
    items: &[Item],
) -> Result<Lowered, AllocError>
    requires held { lo + held_size (view_defs extents.now) (view_items items.now) ≤ limit }
    requires alone { shared + greatest (view_defs extents.now) (view_items items.now) ≤ limit }
    ensures { IfOk result (λ l. view_lowered l
        ≡ terms.lower_items (view_defs extents.now) (view_ty ty.now) array shared lo (program.items_of (view_items items.now))) }
{
    let mut sum = nothing_stored(alloc, array, lo);
    for item in items {
        let held = may_hold(extents, &item.value);
        let from = slots_from(held, sum.free, shared);
        let element = lower_expr(alloc, extents, from, &item.value)?;
        store_element(alloc, &mut sum, ty, item, element, held)?;
    }
    Ok(sum)
}

// The code of the element of `*`, in a loop.
#[cycle(lowering)]
#[tactic(auto, using(limbo_typed::proofs::View::the_exprs))]
fn lower_others(
    alloc: Global,
    extents: &Extents<'_>,
    ty: &Ty,
    array: u32,
    indices: Vec<i64>,
    shared: u32,
    lo: u32,
    rest: &Option<Box<TExpr>>,
) -> Result<Lowered, AllocError>
    requires held { lo + (1 + rest_held (view_defs extents.now) (view_optional rest.now)) ≤ limit }
    requires alone { shared + rest_alone (view_defs extents.now) (view_optional rest.now) ≤ limit }
    ensures { IfOk result (λ l. view_lowered l ≡ terms.lower_rest (view_defs extents.now) (view_ty ty.now) array indices.items shared lo
        (terms_if (view_optional rest.now))) }
{
    let Some(e) = rest else {
        return Ok(nothing_stored(alloc, array, lo));
    };
    if may_hold(extents, e) {
        let element = lower_expr(alloc, extents, lo + 1, e)?;
        let l = chain_others(alloc, ty, array, indices, lo, element)?;
        return Ok(l);
    }
    let element = lower_expr(alloc, extents, shared, e)?;
    let l = repeat_others(alloc, ty, array, indices, lo, element)?;
    Ok(l)
}

// The code of an initialiser.
#[cycle(lowering)]
fn lower_filled(
    alloc: Global,
    extents: &Extents<'_>,
    lo: u32,
    ty: &Ty,
    length: &Option<Box<TExpr>>,
    items: &[Item],
    rest: &Option<Box<TExpr>>,
) -> Result<Lowered, AllocError>
    requires { lo + (16 + filled_size (view_defs extents.now) (view_optional length.now) (view_items items.now) (view_optional rest.now))
        ≤ limit }
    ensures { IfOk result (λ l. view_lowered l ≡ lower (view_defs extents.now) lo (Fill (operations.item_of (view_ty ty.now))
        (length_term (view_optional length.now) (view_items items.now)) (program.items_of (view_items items.now))
        (terms_if (view_optional rest.now)))) }
{
    let ty = item_of(alloc, ty)?;
    let size = lower_length(alloc, extents, lo, length, items)?;
    let array = size.free;
    let end = shared_end(alloc, extents, array + 1, items, rest)?;
    let elements = lower_items(alloc, extents, &ty, array, array + 1, end, items)?;
    let indices = indices_of(alloc, items)?;
    let others = lower_others(
        alloc,
        extents,
        &ty,
        array,
        indices,
        array + 1,
        elements.free,
        rest,
    )?;
    let l = fill(alloc, &ty, size, elements, others)?;
    Ok(l)
}

/// The code of an expression, from a slot on.
///
/// # Errors
/// Want of memory.
#[cycle(lowering)]
pub fn lower_expr(
    alloc: Global,
    extents: &Extents<'_>,
    lo: u32,
    e: &TExpr,
) -> Result<Lowered, AllocError>
    requires { lo + expr_size (view_defs extents.now) (view_expr e.now) ≤ limit }
    ensures { IfOk result (λ l. view_lowered l ≡ lower (view_defs extents.now) lo (term_of (view_expr e.now))) }
{
    match &e.node {
        TNode::Lazy {
            connective,
            left,
            right,
        } => {
            let l = lower_lazy(alloc, extents, lo, *connective, left, right)?;
            Ok(l)
        }
        TNode::Update {
            operation,
            place,
            value,
        } => {
            let others = [Operand {
                expr: value,
                printed: false,
            }];
            let l = lower_update(alloc, extents, lo, *operation, Given::New, place, &others)?;
            Ok(l)
        }
        TNode::Step {
            operation,
            given,
            place,
        } => {
            let l = lower_update(alloc, extents, lo, *operation, *given, place, &[])?;
            Ok(l)
        }
        TNode::Filled {
            length,
            items,
            rest,
        } => {
            let l = lower_filled(alloc, extents, lo, &e.ty, length, items, rest)?;
            Ok(l)
        }
        _ => {
            let l = lower_node(alloc, extents, lo, e)?;
            Ok(l)
        }
    }
}
