//! What operands are put together as, and where the references go of those that move.

ghost use Rattle.std.specs.Prelude.{◌≡◌, ◌+◌, ◌≤◌, ◌^◌, ◌++◌, IfOk, List, OnOk, length, map, take, option_map, Some};
ghost use Rattle.limbo_types.specs.View.{view_ty};
ghost use Rattle.limbo_layout.specs.Adts.{Def, variant_types};
ghost use Rattle.limbo_layout.specs.View.{view_def, view_defs, view_variant};
ghost use Rattle.core_code.specs.Terms as terms;
ghost use Rattle.core_code.specs.Terms.{numbers_from, part_types};
ghost use Rattle.core_parts.specs.Nodes.{view_moved, view_whole, AllFit};
ghost use Rattle.core_writing.specs.Gathering as gathering;

use core_parts::{Moved, Whole};
use limbo_layout::{AdtDef, Variant};
use limbo_typed::Operation;
use limbo_types::Ty;
use std::alloc::{AllocError, Global};
use value_extents::Extents;

/// Where the references of a part go that is taken out of a slot. A value has no more than a word counts: an adt with more isn't checked.
pub(crate) fn move_out(
    extents: &Extents<'_>,
    whole: &Ty,
    part: u32,
    from: u32,
    into: u32,
) -> Result<Moved, AllocError>
    ensures exact { IfOk result (λ m. view_moved m ≡ terms.moves_out (view_defs extents.now) (view_ty whole.now) part from into) }
    ensures fits { IfOk result (λ m. m.at + m.count ≤ 2 ^ 32) }
{
    match extents.part(whole, part) {
        None => Err(AllocError),
        Some(references) => Ok(Moved {
            slot: from,
            first: references.before,
            count: references.count,
            into,
            at: 0,
        }),
    }
}

// Where those of an operand go that moves into a part.
fn move_into(
    extents: &Extents<'_>,
    whole: &Ty,
    into: u32,
    number: u32,
    slot: u32,
) -> Result<Moved, AllocError>
    ensures exact { IfOk result (λ m. view_moved m
        ≡ gathering.move_into (view_defs extents.now) (part_types (view_defs extents.now) (view_ty whole.now)) into number slot) }
    ensures fits { IfOk result (λ m. m.at + m.count ≤ 2 ^ 32) }
{
    match extents.part(whole, number) {
        None => Err(AllocError),
        Some(references) => Ok(Moved {
            slot,
            first: 0,
            count: references.count,
            into,
            at: references.before,
        }),
    }
}

// Where those of operands go that move into the parts of these numbers.
fn moves_into(
    alloc: Global,
    extents: &Extents<'_>,
    whole: &Ty,
    into: u32,
    numbers: &[u32],
    slots: &[u32],
) -> Result<Vec<Moved>, AllocError>
    ensures exact { IfOk result (λ ms. map view_moved ms.items
        ≡ terms.moves_into (view_defs extents.now) (part_types (view_defs extents.now) (view_ty whole.now)) into numbers.now slots.now) }
    ensures fits { IfOk result (λ ms. AllFit ms.items) }
{
    let mut moves = Vec::new(alloc);
    let mut rest = slots;
    for number in numbers {
        let Some((slot, more)) = rest.split_first() else {
            return Ok(moves);
        };
        let moved = move_into(extents, whole, into, *number, *slot)?;
        moves.push(moved)?;
        rest = more;
    }
    Ok(moves)
}

// Adds numbers in a row.
fn add_numbers(numbers: &mut Vec<u32>, from: usize, count: usize) -> Result<(), AllocError>
    ensures { (defs : List Def) → OnOk result (numbers.new.items ≡ numbers.old.items ++ numbers_from defs from count) }
{
    for i in 0..count {
        let Some(number) = from.checked_add(i) else {
            return Err(AllocError);
        };
        let Ok(number) = u32::try_from(number) else {
            return Err(AllocError);
        };
        numbers.push(number)?;
    }
    Ok(())
}

// So many variants from the front.
fn first_variants(picks: &[Variant], count: usize) -> &[Variant]
    ensures { result.now ≡ take count picks.now }
{
    if count <= picks.len() {
        &picks[..count]
    } else {
        picks
    }
}

// How many fields variants have.
fn count_fields(picks: &[Variant]) -> Result<usize, AllocError>
    ensures { IfOk result (λ n. n ≡ length (variant_types (map view_variant picks.now))) }
{
    let mut sum = 0usize;
    for variant in picks {
        let Some(more) = sum.checked_add(variant.fields.len()) else {
            return Err(AllocError);
        };
        sum = more;
    }
    Ok(sum)
}

// Where the fields of a variant begin among the parts of its adt.
fn first_number(def: &AdtDef, variant: u32) -> Result<usize, AllocError>
    ensures { IfOk result (λ n. n ≡ 1 + length (view_def def.now).fields
        + length (variant_types (take variant (view_def def.now).picks))) }
{
    let before = count_fields(first_variants(&def.picks, variant as usize))?;
    let Some(first) = def.fields.len().checked_add(1) else {
        return Err(AllocError);
    };
    match first.checked_add(before) {
        None => Err(AllocError),
        Some(from) => Ok(from),
    }
}

// The numbers of the common fields, and of a variant's.
fn variant_numbers(
    alloc: Global,
    def: &AdtDef,
    variant: u32,
    operands: usize,
) -> Result<Vec<u32>, AllocError>
    ensures { (defs : List Def) → IfOk result (λ ns. ns.items
        ≡ terms.adt_numbers defs (Some (view_def def.now)) (Some variant) operands) }
{
    let mut numbers = Vec::new(alloc);
    let common = def.fields.len();
    add_numbers(&mut numbers, 1, common)?;
    let from = first_number(def, variant)?;
    add_numbers(&mut numbers, from, operands.saturating_sub(common))?;
    Ok(numbers)
}

// Numbers in a row, from one on.
fn numbers_in(alloc: Global, from: usize, count: usize) -> Result<Vec<u32>, AllocError>
    ensures { (defs : List Def) → IfOk result (λ ns. ns.items ≡ numbers_from defs from count) }
{
    let mut numbers = Vec::new(alloc);
    add_numbers(&mut numbers, from, count)?;
    Ok(numbers)
}

// The numbers of the parts that the fields of an adt's value are.
fn adt_numbers(
    alloc: Global,
    def: Option<&AdtDef>,
    variant: Option<u32>,
    operands: usize,
) -> Result<Vec<u32>, AllocError>
    ensures { (defs : List Def) → IfOk result (λ ns. ns.items
        ≡ terms.adt_numbers defs (option_map (λ d. view_def d.now) def.entry) variant operands) }
{
    match (def, variant) {
        (Some(def), Some(variant)) => {
            let numbers = variant_numbers(alloc, def, variant, operands)?;
            Ok(numbers)
        }
        (Some(_), None) => {
            let numbers = numbers_in(alloc, 0, operands)?;
            Ok(numbers)
        }
        (None, _) => {
            let numbers = numbers_in(alloc, 0, operands)?;
            Ok(numbers)
        }
    }
}

// The numbers of the parts that the operands of a tuple and of an adt's value are.
#[tactic(auto, using(crate::proofs::Numbered::no_adt))]
fn part_numbers(
    alloc: Global,
    extents: &Extents<'_>,
    operation: Operation,
    operands: usize,
) -> Result<Vec<u32>, AllocError>
    ensures { IfOk result (λ ns. ns.items ≡ terms.part_numbers (view_defs extents.now) operation operands) }
{
    match operation {
        Operation::Adt { adt, variant } => {
            let numbers = adt_numbers(alloc, extents.defs().get(adt as usize), variant, operands)?;
            Ok(numbers)
        }
        _ => {
            let numbers = numbers_in(alloc, 0, operands)?;
            Ok(numbers)
        }
    }
}

// The variant of the adt whose value an operation gives.
#[tactic(auto, using(crate::proofs::Numbered::no_variant))]
fn variant_of(operation: Operation) -> Option<u32>
    ensures { (defs : List Def) → result ≡ terms.variant_of defs operation }
{
    match operation {
        Operation::Adt { variant, .. } => variant,
        _ => None,
    }
}

// What operands are put together as in a slot, of the parts of these numbers.
fn whole_of(
    alloc: Global,
    extents: &Extents<'_>,
    ty: Ty,
    variant: Option<u32>,
    parts: Vec<u32>,
    into: u32,
    slots: &[u32],
) -> Result<Whole, AllocError>
    ensures exact { IfOk result (λ w. view_whole w
        ≡ gathering.whole_of (view_defs extents.now) (view_ty ty) variant parts.items into slots.now) }
    ensures fits { IfOk result (λ w. AllFit w.moves.items) }
{
    let moves = moves_into(alloc, extents, &ty, into, &parts, slots)?;
    Ok(Whole {
        ty,
        variant,
        parts,
        moves,
    })
}

/// What the operands of a tuple and of an adt's value are put together as in a slot.
pub(crate) fn value_of(
    alloc: Global,
    extents: &Extents<'_>,
    ty: Ty,
    operation: Operation,
    into: u32,
    slots: &[u32],
) -> Result<Whole, AllocError>
    ensures exact { IfOk result (λ w. view_whole w ≡ gathering.whole_of (view_defs extents.now) (view_ty ty)
        (terms.variant_of (view_defs extents.now) operation) (terms.part_numbers (view_defs extents.now) operation (length slots.now))
        into slots.now) }
    ensures fits { IfOk result (λ w. AllFit w.moves.items) }
{
    let parts = part_numbers(alloc, extents, operation, slots.len())?;
    let variant = variant_of(operation);
    let whole = whole_of(alloc, extents, ty, variant, parts, into, slots)?;
    Ok(whole)
}

/// What the operands of a call and of a print are put together as in a slot: a tuple of these types, whose parts from one on they are.
pub(crate) fn tuple_of(
    alloc: Global,
    extents: &Extents<'_>,
    from: usize,
    types: Vec<Ty>,
    into: u32,
    slots: &[u32],
) -> Result<Whole, AllocError>
    ensures exact { IfOk result (λ w. view_whole w
        ≡ gathering.tuple_of (view_defs extents.now) from (map view_ty types.items) into slots.now) }
    ensures fits { IfOk result (λ w. AllFit w.moves.items) }
{
    let parts = numbers_in(alloc, from, slots.len())?;
    let whole = whole_of(alloc, extents, Ty::Tuple(types), None, parts, into, slots)?;
    Ok(whole)
}
