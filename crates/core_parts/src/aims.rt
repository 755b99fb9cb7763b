//! The places that assignments write, and the writes.

ghost use Rattle.std.specs.Prelude.{◌≡◌, ◌∷◌, ◌++◌, [], IfOk, List, OnOk, map, take, drop};
ghost use Rattle.limbo_typed.specs.View.{view_place_node, view_pattern, patterns_of};
ghost use Rattle.limbo_meaning.specs.Evaluation.{operands_for};
ghost use Rattle.limbo_meaning.specs.Places as places;
ghost use Rattle.limbo_meaning.specs.Program as program;
ghost use Rattle.core_data.specs.View.{view_root, view_way};
ghost use Rattle.core_code.specs.Terms as terms;
ghost use Rattle.limbo_layout.specs.Adts.{Def};
ghost use Rattle.core_code.specs.Terms.{slot_at};
ghost use Rattle.core_parts.specs.Aims.{view_aim};
ghost use Rattle.core_parts.specs.Lowered.{code_of};

use crate::lowered::put;
use core_data::{Inst, Root, Way};
use limbo_typed::{Pattern, PlaceNode};
use limbo_types::{Ty, copy};
use std::alloc::{AllocError, Global};

/// A place that an assignment writes, and which part of the assigned value goes there.
#[derive(Drop)]
pub struct Aim {
    pub part: Vec<u32>,
    pub ty: Ty,
    pub way: Way,
}

/// The way that is its root.
pub fn begin(alloc: Global, root: Root) -> Way
    ensures { view_way result ≡ program.began (view_root root) }
{
    Way {
        root,
        parts: Vec::new(alloc),
        character: false,
    }
}

/// The way to a place, from its root on.
#[tactic(auto, using(limbo_typed::proofs::View::the_exprs))]
pub fn way_of(alloc: Global, node: &PlaceNode) -> Result<Way, AllocError>
    ensures { IfOk result (λ way. view_way way ≡ program.way_of (view_place_node node.now)) }
{
    match node {
        PlaceNode::Local(number) => Ok(begin(alloc, Root::Local(*number))),
        PlaceNode::Global(number) => Ok(begin(alloc, Root::Global(*number))),
        PlaceNode::Field { whole, part } => {
            let mut way = way_of(alloc, &whole.at)?;
            way.parts.push(*part)?;
            Ok(way)
        }
        PlaceNode::Element { .. } => Ok(begin(alloc, Root::Element)),
        PlaceNode::Character { text, .. } => {
            let mut way = way_of(alloc, &text.at)?;
            way.character = true;
            Ok(way)
        }
        PlaceNode::Target { .. } => Ok(begin(alloc, Root::Target)),
    }
}

// How many operands a way takes.
fn operands_of(way: &Way) -> usize
    ensures { result ≡ places.operands_of (view_way way.now) }
{
    let count = match way.root {
        Root::Element => 2,
        Root::Target => 1,
        _ => 0,
    };
    if way.character { count + 1 } else { count }
}

// What stands behind the operands of a way.
fn behind<'a, T>(way: &Way, slots: &'a [T]) -> &'a [T]
    ensures { result.now ≡ drop (places.operands_of (view_way way.now)) slots.now }
{
    let count = operands_of(way);
    if count <= slots.len() {
        &slots[count..]
    } else {
        &[]
    }
}

// The slots of the operands of a way.
fn operands_in(alloc: Global, way: &Way, slots: &[u32]) -> Result<Vec<u32>, AllocError>
    ensures { IfOk result (λ v. v.items ≡ take (places.operands_of (view_way way.now)) slots.now) }
{
    let count = operands_of(way);
    if count <= slots.len() {
        Vec::from_slice(alloc, &slots[..count])
    } else {
        Vec::from_slice(alloc, slots)
    }
}

/// What stands behind the operands of all places.
pub fn behind_all<'a, T>(aims: &[Aim], slots: &'a [T]) -> &'a [T]
    ensures { result.now ≡ drop (operands_for (map view_aim aims.now)) slots.now }
{
    let mut rest = slots;
    for aim in aims {
        rest = behind(&aim.way, rest);
    }
    rest
}

/// The slot of the assigned value, which stands behind the operands of all places.
#[tactic(auto, using(crate::proofs::Aimed::first_behind))]
pub fn assigned(aims: &[Aim], slots: &[u32]) -> u32
    ensures { result ≡ slot_at (operands_for (map view_aim aims.now)) slots.now }
{
    match behind_all(aims, slots).first() {
        Some(slot) => *slot,
        None => 0,
    }
}

/// Writes the writes of an assignment: each place takes its operands from the front.
pub fn put_writes(
    alloc: Global,
    code: &mut Vec<Inst>,
    aims: Vec<Aim>,
    slots: &[u32],
    from: u32,
) -> Result<(), AllocError>
    ensures { (defs : List Def) → OnOk result (code_of code.new.items
        ≡ code_of code.old.items ++ terms.writes defs (map view_aim aims.items) slots.now from) }
{
    let mut rest = slots;
    for aim in aims {
        let Aim { part, ty, way } = aim;
        let operands = operands_in(alloc, &way, rest)?;
        rest = behind(&way, rest);
        put(
            code,
            Inst::Write {
                ty,
                way,
                operands,
                part,
                from,
            },
        )?;
    }
    Ok(())
}

// The place of a pattern's part, which is one more of these numbers.
fn part_in(alloc: Global, part: &[u32], number: u32) -> Result<Vec<u32>, AllocError>
    ensures { IfOk result (λ v. v.items ≡ part.now ++ number ∷ []) }
{
    let mut all = Vec::from_slice(alloc, part)?;
    all.push(number)?;
    Ok(all)
}

/// Adds the places of a pattern, each with the part of the value that goes there.
#[cycle(aims)]
#[tactic(auto, using(limbo_typed::proofs::View::the_exprs))]
pub fn add_aims(
    alloc: Global,
    aims: &mut Vec<Aim>,
    part: &[u32],
    pattern: &Pattern,
) -> Result<(), AllocError>
    ensures { OnOk result (map view_aim aims.new.items
        ≡ map view_aim aims.old.items ++ program.aims_in part.now (view_pattern pattern.now)) }
{
    match pattern {
        Pattern::Place(place) => {
            let part = Vec::from_slice(alloc, part)?;
            let ty = copy(alloc, &place.ty)?;
            let way = way_of(alloc, &place.at)?;
            aims.push(Aim { part, ty, way })?;
            Ok(())
        }
        Pattern::Nothing => Ok(()),
        Pattern::Tuple(patterns) => add_aims_among(alloc, aims, part, patterns),
    }
}

// Adds the places of patterns, each of which takes a part of the value.
#[cycle(aims)]
fn add_aims_among(
    alloc: Global,
    aims: &mut Vec<Aim>,
    part: &[u32],
    patterns: &[Pattern],
) -> Result<(), AllocError>
    ensures { OnOk result (map view_aim aims.new.items
        ≡ map view_aim aims.old.items ++ program.aims_among part.now 0 (patterns_of (map view_pattern patterns.now))) }
{
    for i in 0..patterns.len() {
        let Ok(number) = u32::try_from(i) else {
            return Err(AllocError);
        };
        let inner = part_in(alloc, part, number)?;
        add_aims(alloc, aims, &inner, &patterns[i])?;
    }
    Ok(())
}
