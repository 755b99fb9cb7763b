//! The frame of a function.

ghost use Rattle.std.specs.Prelude.{◌≡◌, ◌+◌, ◌≤◌, [], max, map, IfOk};
ghost use Rattle.slot_code.specs.Machine.{same_kind};
ghost use Rattle.slot_code.specs.View.{view_spot, view_operand, view_inst, view_function};
ghost use Rattle.dis_objects.specs.Frames as frames;
ghost use Rattle.dis_objects.specs.Words.{frame_limit, SmallFrame};
ghost use Rattle.dis_objects.specs.Sites.{view_room};

use crate::layout::{LINKAGE, end_of, whole};
use crate::ready::Making;
use limbo_values::Kind;
use slot_code::{Inst, Operand, SlotFn, Spot};
use std::alloc::{AllocError, Global};

/// Where each region of a frame begins, behind its variables: bigs, ints and bytes of temporaries, the address of the frame that is made,
/// and arguments; and how many bytes the frame has.
#[derive(Clone, Copy)]
pub struct Room {
    pub bigs: u32,
    pub ints: u32,
    pub bytes: u32,
    pub made: u32,
    pub arguments: u32,
    pub size: u32,
}

// Whether two kinds are the same.
fn is_kind(left: Kind, right: Kind) -> bool
    ensures { result ≡ same_kind left right }
{
    match (left, right) {
        (Kind::Byte, Kind::Byte) => true,
        (Kind::Int, Kind::Int) => true,
        (Kind::Big, Kind::Big) => true,
        _ => false,
    }
}

// How many temporaries of a kind have the place that is named.
fn spot_count(kind: Kind, spot: Spot) -> usize
    ensures { result ≡ frames.spot_count kind (view_spot spot) }
{
    match spot {
        Spot::Temporary { kind: own, number } => {
            if is_kind(kind, own) {
                number as usize + 1
            } else {
                0
            }
        }
        Spot::Variable { .. } => 0,
        Spot::Global { .. } => 0,
        Spot::Argument { .. } => 0,
    }
}

fn operand_count(kind: Kind, operand: Operand) -> usize
    ensures { result ≡ frames.operand_count kind (view_operand operand) }
{
    match operand {
        Operand::In(spot) => spot_count(kind, spot),
        Operand::Number(_) => 0,
    }
}

fn inst_count(kind: Kind, inst: &Inst) -> usize
    ensures { result ≡ frames.inst_count kind (view_inst inst.now) }
{
    match inst {
        Inst::Move { into, from } => spot_count(kind, *into).max(operand_count(kind, *from)),
        Inst::Hand { into, from } => spot_count(kind, *into).max(operand_count(kind, *from)),
        Inst::Alter { into, of, .. } => spot_count(kind, *into).max(operand_count(kind, *of)),
        Inst::Operate {
            into,
            left,
            right,
            ..
        } => {
            let operands = operand_count(kind, *left).max(operand_count(kind, *right));
            spot_count(kind, *into).max(operands)
        }
        Inst::Branch { left, right, .. } => {
            operand_count(kind, *left).max(operand_count(kind, *right))
        }
        Inst::Call { into, .. } => spot_count(kind, *into),
        Inst::Print { into, .. } => spot_count(kind, *into),
        Inst::Return { value } => operand_count(kind, *value),
        Inst::Jump { .. } => 0,
        Inst::Skip { .. } => 0,
        Inst::Back { .. } => 0,
        Inst::Begin { .. } => 0,
        Inst::Format { .. } => 0,
        Inst::Leave => 0,
    }
}

// How many temporaries of a kind a code has.
fn count(kind: Kind, code: &[Inst]) -> usize
    ensures { result ≡ frames.count kind (map view_inst code.now) }
{
    let mut most = 0;
    for inst in code {
        most = most.max(inst_count(kind, inst));
    }
    most
}

// The most bytes that arguments take, over the places of a code.
fn most_bytes(alloc: Global, functions: &[SlotFn], code: &[Inst]) -> Result<u32, AllocError>
    requires { frames.most_bytes (map view_function functions.now) [] (map view_inst code.now) ≤ frame_limit }
    ensures { IfOk result (λ n. n ≡ frames.most_bytes (map view_function functions.now) [] (map view_inst code.now)) }
{
    let mut making = Making::new(alloc);
    let mut most = 0;
    for inst in code {
        most = most.max(making.bytes());
        making.step(functions, inst)?;
    }
    Ok(most.max(making.bytes()))
}

// The regions, of so many temporaries and bytes of arguments.
fn room_from(start: u32, bigs: usize, ints: usize, bytes: usize, arguments: u32) -> Room
    requires { (frames.room_from start bigs ints bytes arguments).size ≤ frame_limit }
    ensures { view_room result ≡ frames.room_from start bigs ints bytes arguments }
{
    let at_ints = start + 8 * bigs as u32;
    let at_made = at_ints + 4 * ints as u32;
    let at_arguments = at_made + 4;
    let at_bytes = at_arguments + arguments;
    Room {
        bigs: start,
        ints: at_ints,
        bytes: at_bytes,
        made: at_made,
        arguments: at_arguments,
        size: whole(at_bytes + bytes as u32),
    }
}

/// The frame of a function.
///
/// # Errors
/// Want of memory.
pub fn room_of(alloc: Global, functions: &[SlotFn], function: &SlotFn) -> Result<Room, AllocError>
    requires { SmallFrame (map view_function functions.now) (view_function function.now) }
    ensures { IfOk result (λ r. view_room r ≡ frames.room_of (map view_function functions.now) (view_function function.now)) }
{
    let start = whole(end_of(LINKAGE, &function.variables));
    let code = function.code.as_slice();
    let bigs = count(Kind::Big, code);
    let ints = count(Kind::Int, code);
    let bytes = count(Kind::Byte, code);
    let arguments = most_bytes(alloc, functions, code)?;
    Ok(room_from(start, bigs, ints, bytes, arguments))
}
