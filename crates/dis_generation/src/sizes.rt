//! How many instructions the code becomes, and where each begins.

ghost use Rattle.std.specs.Prelude.{◌≡◌, ◌+◌, ◌*◌, ◌<◌, ◌≤◌, length, map, IfOk, OnOk, MatchOption};
ghost use Rattle.slot_code.specs.View.{view_inst, view_function};
ghost use Rattle.limbo_typed.specs.declared.operation.Operation.TheVariants as operation;
ghost use Rattle.dis_objects.specs.Code as dis;
ghost use Rattle.dis_objects.specs.Objects.{most_instructions};
ghost use Rattle.dis_objects.specs.Sites.{functions_size, entries_from, places_from};

use crate::fault::GenFault;
use limbo_typed::Operation;
use limbo_values::Kind;
use slot_code::{Inst, SlotFn};
use std::alloc::{AllocError, Global};

// The code of a module has at most so many instructions.
const MOST_INSTRUCTIONS: u32 = 1_048_576;

// How many instructions convert a number.
fn conversion_size(from: Kind, to: Kind) -> u32
    ensures value { result ≡ dis.altering_size (operation.Convert from to) }
    ensures few { result ≤ 2 }
{
    match from {
        Kind::Byte => match to {
            Kind::Byte => 1,
            Kind::Int => 1,
            Kind::Big => 2,
        },
        Kind::Int => match to {
            Kind::Byte => 1,
            Kind::Int => 1,
            Kind::Big => 1,
        },
        Kind::Big => match to {
            Kind::Byte => 2,
            Kind::Int => 1,
            Kind::Big => 1,
        },
    }
}

#[tactic(auto, using(crate::proofs::Others::no_altering))]
fn altering_size(operation: Operation) -> u32
    ensures value { result ≡ dis.altering_size operation }
    ensures few { result ≤ 4 }
{
    match operation {
        Operation::Alter { .. } => 1,
        Operation::Not => 4,
        Operation::Convert { from, to } => conversion_size(from, to),
        _ => 0,
    }
}

#[tactic(auto, using(crate::proofs::Others::no_operating))]
fn operating_size(operation: Operation) -> u32
    ensures value { result ≡ dis.operating_size operation }
    ensures few { result ≤ 4 }
{
    match operation {
        Operation::Arithmetic { .. } => 1,
        Operation::Shift { .. } => 1,
        Operation::Compare { .. } => 4,
        _ => 0,
    }
}

// How many instructions an instruction becomes.
fn size_of(inst: &Inst) -> u32
    ensures value { result ≡ dis.size (view_inst inst.now) }
    ensures few { result ≤ 5 }
{
    match inst {
        Inst::Move { .. } => 1,
        Inst::Hand { .. } => 1,
        Inst::Alter { operation, .. } => altering_size(*operation),
        Inst::Operate { operation, .. } => operating_size(*operation),
        Inst::Branch { .. } => 1,
        Inst::Jump { .. } => 1,
        Inst::Skip { .. } => 1,
        Inst::Back { .. } => 1,
        Inst::Begin { .. } => 1,
        Inst::Call { .. } => 4,
        Inst::Format { .. } => 1,
        Inst::Print { .. } => 5,
        Inst::Return { .. } => 2,
        Inst::Leave => 2,
    }
}

// Where the code of these instructions ends, which begins at a place, if the code may be so long.
fn end_of(insts: &[Inst], begin: u32) -> Option<u32>
    requires { begin ≤ most_instructions }
    ensures { let behind = begin + dis.sizes (map view_inst insts.now) in
        MatchOption result (most_instructions < behind) (λ end. (end ≡ behind) × (end ≤ most_instructions)) }
{
    let mut end = begin;
    for inst in insts {
        end += size_of(inst);
        if end > MOST_INSTRUCTIONS {
            return None;
        }
    }
    Some(end)
}

/// Where the code of each function begins, that of the first at a place.
///
/// # Errors
/// `CodeTooLarge` exactly where the last ends too far behind; `NoMemory`.
pub(crate) fn entries_of(
    alloc: Global,
    functions: &[SlotFn],
    first: u32,
) -> Result<Vec<u32>, GenFault>
    requires { first ≤ most_instructions }
    ensures entries { IfOk result (λ v. v.items ≡ entries_from first (map view_function functions.now)) }
    ensures fits { OnOk result (first + functions_size (map view_function functions.now) ≤ most_instructions) }
    ensures too_large { result ≡ Err GenFault.CodeTooLarge → most_instructions < first + functions_size (map view_function functions.now) }
{
    let mut entries = Vec::new(alloc);
    let mut place = first;
    for f in functions {
        entries.push(place)?;
        match end_of(&f.code, place) {
            Some(end) => place = end,
            None => return Err(GenFault::CodeTooLarge),
        }
    }
    Ok(entries)
}

/// Where the code of each instruction of a function begins, that of the first at a place, and where that of the last ends.
///
/// # Errors
/// Want of memory.
pub(crate) fn places_of(alloc: Global, insts: &[Inst], begin: u32) -> Result<Vec<u32>, AllocError>
    requires { begin + dis.sizes (map view_inst insts.now) ≤ most_instructions }
    ensures { IfOk result (λ v. v.items ≡ places_from begin (map view_inst insts.now)) }
{
    let mut places = Vec::new(alloc);
    let mut place = begin;
    for inst in insts {
        places.push(place)?;
        place += size_of(inst);
    }
    places.push(place)?;
    Ok(places)
}
