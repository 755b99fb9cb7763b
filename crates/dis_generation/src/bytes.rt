//! How many bytes of data an instruction has.

ghost use Rattle.std.specs.Prelude.{◌≡◌, ◌+◌, ◌≤◌, ℤ, map};
ghost use Rattle.slot_code.specs.View.{view_operand, view_inst, view_function};
ghost use Rattle.dis_objects.specs.Frames as frames;
ghost use Rattle.dis_objects.specs.Code as dis;
ghost use Rattle.dis_objects.specs.Words.{frame_limit};
ghost use Rattle.dis_objects.specs.Sites.{made_of, IsCounted, view_callee};

use dis_objects::{
    Callee, Making, argument_bytes, fits_middle, fits_source, operand_kind, spot_kind,
};
use limbo_typed::Operation;
use limbo_values::Kind;
use slot_code::{Inst, Operand, SlotFn};

// Those of a number that is no immediate.
fn number_bytes(fits: bool, kind: Kind) -> u32
    ensures value { (number : ℤ) → result ≡ dis.data_bytes (dis.unless_fits fits (dis.number_datum kind number)) }
    ensures few { result ≤ 8 }
{
    if fits {
        return 0;
    }
    match kind {
        Kind::Byte => 4,
        Kind::Int => 4,
        Kind::Big => 8,
    }
}

/// Those of a source of a kind.
pub(crate) fn source_bytes(kind: Kind, operand: Operand) -> u32
    ensures value { result ≡ dis.data_bytes (dis.source_data kind (view_operand operand)) }
    ensures few { result ≤ 8 }
{
    match operand {
        Operand::In(_) => 0,
        Operand::Number(number) => number_bytes(fits_source(number), kind),
    }
}

// Those of a middle.
fn middle_bytes(kind: Kind, operand: Operand) -> u32
    ensures value { result ≡ dis.data_bytes (dis.middle_data kind (view_operand operand)) }
    ensures few { result ≤ 8 }
{
    match operand {
        Operand::In(_) => 0,
        Operand::Number(number) => number_bytes(fits_middle(number), kind),
    }
}

// Those of a number of bytes that are moved.
fn moved_bytes(bytes: u32) -> u32
    ensures value { result ≡ dis.data_bytes (dis.bytes_data bytes) }
    ensures few { result ≤ 8 }
{
    number_bytes(fits_middle(i64::from(bytes)), Kind::Int)
}

// Those of an operation on two operands.
#[tactic(auto, using(dis_objects::proofs::Growing::bytes_append, crate::proofs::Others::no_operands))]
fn operation_bytes(operation: Operation, left: Operand, right: Operand) -> u32
    ensures value { result ≡ dis.data_bytes (dis.operation_data operation (view_operand left) (view_operand right)) }
    ensures few { result ≤ 16 }
{
    match operation {
        Operation::Arithmetic { kind, .. } => source_bytes(kind, right) + middle_bytes(kind, left),
        Operation::Shift { kind, .. } => source_bytes(Kind::Int, right) + middle_bytes(kind, left),
        Operation::Compare { kind, .. } => source_bytes(kind, left) + middle_bytes(kind, right),
        _ => 0,
    }
}

// Those of a callee that is made: the text of a format, and how many bytes are moved.
fn passing_bytes(functions: &[SlotFn], making: &Making<'_>) -> u32
    requires counted { IsCounted (map view_function functions.now) making.now }
    requires small { making.now.bytes ≤ frame_limit }
    ensures value { result ≡ dis.data_bytes (dis.passing_data (map view_function functions.now) (made_of making.now)) }
    ensures few { result ≤ 16 }
{
    match making.innermost() {
        None => 0,
        Some(callee) => match callee {
            Callee::Calls(_) => moved_bytes(argument_bytes(functions, callee)),
            Callee::Prints(_) => 4 + moved_bytes(argument_bytes(functions, callee)),
        },
    }
}

/// Those of an instruction where these are being made ready, in a function whose answer is of a kind.
pub(crate) fn inst_bytes(
    functions: &[SlotFn],
    answer: Kind,
    making: &Making<'_>,
    inst: &Inst,
) -> u32
    requires counted { IsCounted (map view_function functions.now) making.now }
    requires old_small { making.now.bytes ≤ frame_limit }
    requires small { frames.all_bytes (map view_function functions.now) (frames.made_by (made_of making.now) (view_inst inst.now))
        ≤ frame_limit }
    ensures value { result ≡ dis.data_bytes
        (dis.data_of (map view_function functions.now) answer (made_of making.now) (view_inst inst.now)) }
    ensures few { result ≤ 16 }
{
    match inst {
        Inst::Move { into, from } => source_bytes(spot_kind(*into), *from),
        Inst::Hand { into, from } => source_bytes(spot_kind(*into), *from),
        Inst::Alter { operation, of, .. } => source_bytes(operand_kind(*operation), *of),
        Inst::Operate {
            operation,
            left,
            right,
            ..
        } => operation_bytes(*operation, *left, *right),
        Inst::Branch {
            kind,
            left,
            right,
            ..
        } => source_bytes(*kind, *left) + middle_bytes(*kind, *right),
        Inst::Begin { function } => {
            moved_bytes(argument_bytes(functions, Callee::Calls(*function)))
        }
        Inst::Format { pieces } => {
            moved_bytes(argument_bytes(functions, Callee::Prints(pieces.as_slice())))
        }
        Inst::Call { .. } => passing_bytes(functions, making),
        Inst::Print { .. } => passing_bytes(functions, making),
        Inst::Return { value } => source_bytes(answer, *value),
        Inst::Jump { .. } => 0,
        Inst::Skip { .. } => 0,
        Inst::Back { .. } => 0,
        Inst::Leave => 0,
    }
}
