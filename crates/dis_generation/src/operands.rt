//! Operands and operations of the machine.

ghost use Rattle.std.specs.Prelude.{◌≡◌, ◌+◌, ◌<◌, ◌≤◌, pos};
ghost use Rattle.dis_objects.specs.Code as dis;

use dis_isa::{Inst, Middle, Op, Operand};
use dis_objects::{fits_middle, fits_source};
use limbo_values::{Comparison, Kind, Operator, Shift};

/// Where the module's data hold the module Sys.
pub(crate) const SYS: i32 = 4;

/// Where a frame holds the address that takes its answer, and a number on its way from one conversion to the next.
pub(crate) const ANSWER_PLACE: u32 = 16;

pub(crate) const PASSING_PLACE: u32 = 20;

/// An instruction of these operands.
pub(crate) fn make(op: Op, src: Operand, middle: Middle, dst: Operand) -> Inst
    ensures { result ≡ dis.inst op src middle dst }
{
    Inst {
        op,
        middle,
        src,
        dst,
    }
}

/// A place as the machine's instructions have it.
pub(crate) fn offset(place: u32) -> i32
    requires { place ≤ 1073741824 }
    ensures { result ≡ pos place }
{
    place as i32
}

/// A place of the frame.
pub(crate) fn own(place: u32) -> Operand
    requires { place ≤ 1073741824 }
    ensures { result ≡ dis.own place }
{
    Operand::Fp(offset(place))
}

/// A number as a source: an immediate, or what stands at a place of the module's data.
pub(crate) fn number_source(number: i64, at: u32) -> Operand
    requires { at ≤ 1073741824 }
    ensures { result ≡ dis.number_source (dis.fits_source number) number at }
{
    if fits_source(number) {
        Operand::Imm(number as i32)
    } else {
        Operand::Mp(offset(at))
    }
}

/// A number as a middle.
pub(crate) fn number_middle(number: i64, at: u32) -> Middle
    requires { at ≤ 1073741824 }
    ensures { result ≡ dis.number_middle (dis.fits_middle number) number at }
{
    if fits_middle(number) {
        Middle::Imm(number as i32)
    } else {
        Middle::Mp(offset(at))
    }
}

/// A place as a middle.
pub(crate) fn as_middle(operand: Operand) -> Middle
    ensures { result ≡ dis.as_middle operand }
{
    match operand {
        Operand::Fp(at) => Middle::Fp(at),
        Operand::Mp(at) => Middle::Mp(at),
        Operand::None => Middle::None,
        Operand::Imm(_) => Middle::None,
        Operand::IndFp { .. } => Middle::None,
        Operand::IndMp { .. } => Middle::None,
    }
}

// The operation of three that is of a kind.
fn by_kind(byte: Op, int: Op, big: Op, kind: Kind) -> Op
    ensures { result ≡ dis.by_kind byte int big kind }
{
    match kind {
        Kind::Byte => byte,
        Kind::Int => int,
        Kind::Big => big,
    }
}

/// The operation that moves a number.
pub(crate) fn move_op(kind: Kind) -> Op
    ensures { result ≡ dis.move_op kind }
{
    by_kind(Op::Movb, Op::Movw, Op::Movl, kind)
}

/// The operation of an operator.
pub(crate) fn arithmetic_op(operator: Operator, kind: Kind) -> Op
    ensures { result ≡ dis.arithmetic_op operator kind }
{
    match operator {
        Operator::Add => by_kind(Op::Addb, Op::Addw, Op::Addl, kind),
        Operator::Subtract => by_kind(Op::Subb, Op::Subw, Op::Subl, kind),
        Operator::Multiply => by_kind(Op::Mulb, Op::Mulw, Op::Mull, kind),
        Operator::Divide => by_kind(Op::Divb, Op::Divw, Op::Divl, kind),
        Operator::Remainder => by_kind(Op::Modb, Op::Modw, Op::Modl, kind),
        Operator::And => by_kind(Op::Andb, Op::Andw, Op::Andl, kind),
        Operator::Xor => by_kind(Op::Xorb, Op::Xorw, Op::Xorl, kind),
        Operator::Or => by_kind(Op::Orb, Op::Orw, Op::Orl, kind),
    }
}

/// That of a shift.
pub(crate) fn shift_op(shift: Shift, kind: Kind) -> Op
    ensures { result ≡ dis.shift_op shift kind }
{
    match shift {
        Shift::Left => by_kind(Op::Shlb, Op::Shlw, Op::Shll, kind),
        Shift::Right => by_kind(Op::Shrb, Op::Shrw, Op::Shrl, kind),
    }
}

/// That of a comparison, which branches where it holds.
pub(crate) fn branch_op(comparison: Comparison, kind: Kind) -> Op
    ensures { result ≡ dis.branch_op comparison kind }
{
    match comparison {
        Comparison::Equal => by_kind(Op::Beqb, Op::Beqw, Op::Beql, kind),
        Comparison::Unequal => by_kind(Op::Bneb, Op::Bnew, Op::Bnel, kind),
        Comparison::Less => by_kind(Op::Bltb, Op::Bltw, Op::Bltl, kind),
        Comparison::AtMost => by_kind(Op::Bleb, Op::Blew, Op::Blel, kind),
        Comparison::Greater => by_kind(Op::Bgtb, Op::Bgtw, Op::Bgtl, kind),
        Comparison::AtLeast => by_kind(Op::Bgeb, Op::Bgew, Op::Bgel, kind),
    }
}
