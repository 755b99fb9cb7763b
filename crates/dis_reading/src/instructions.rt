//! Instructions (dis(6), "Code section").

ghost use Rattle.std.specs.Prelude.{◌<◌, ◌/◌, ◌%◌, IfOk};
ghost use Rattle.dis_format.specs.Reading.{Gives, opcode_here, middle_at, operand_of, address_at, inst_at, many};

use crate::fields::{any_at, byte_at, offset_at, refused, short_number_at, short_offset_at};
use dis_format::{Cause, ReadFault};
use dis_isa::{Inst, Middle, Op, Operand, op_of};
use std::alloc::Global;

#[tactic(auto, unfolding(dis_format::specs::Reading::opcode_here))]
fn opcode_at(bytes: &[u8]) -> Result<(Op, &[u8]), ReadFault>
    ensures { Gives (λ x. (x.0, x.1.now)) result (opcode_here bytes.now) }
{
    let (code, rest) = byte_at(bytes)?;
    match op_of(code) {
        Some(op) => Ok((op, rest)),
        None => Err(refused(Cause::BadOpcode, bytes)),
    }
}

/// The address byte, which says what the operands are.
#[tactic(auto, unfolding(dis_format::specs::Reading::address_at))]
fn address_at(bytes: &[u8]) -> Result<(u8, &[u8]), ReadFault>
    ensures read { Gives (λ x. (x.0, x.1.now)) result (address_at bytes.now) }
    ensures modes { IfOk result (λ x. (x.0 / 8 % 8 < 6) × (x.0 % 8 < 6)) }
{
    let (address, rest) = byte_at(bytes)?;
    if address / 8 % 8 < 6 && address % 8 < 6 {
        Ok((address, rest))
    } else {
        Err(refused(Cause::BadOperand, bytes))
    }
}

fn middle_at(mode: u8, bytes: &[u8]) -> Result<(Middle, &[u8]), ReadFault>
    requires { mode < 4 }
    ensures { Gives (λ x. (x.0, x.1.now)) result (middle_at mode bytes.now) }
{
    match mode {
        0 => Ok((Middle::None, bytes)),
        1 => {
            let (number, rest) = short_number_at(bytes)?;
            Ok((Middle::Imm(number), rest))
        }
        2 => {
            let (offset, rest) = short_offset_at(bytes)?;
            Ok((Middle::Fp(offset), rest))
        }
        _ => {
            let (offset, rest) = short_offset_at(bytes)?;
            Ok((Middle::Mp(offset), rest))
        }
    }
}

fn operand_of(mode: u8, bytes: &[u8]) -> Result<(Operand, &[u8]), ReadFault>
    requires { mode < 6 }
    ensures { Gives (λ x. (x.0, x.1.now)) result (operand_of mode bytes.now) }
{
    match mode {
        0 => {
            let (offset, rest) = offset_at(bytes)?;
            Ok((Operand::Mp(offset), rest))
        }
        1 => {
            let (offset, rest) = offset_at(bytes)?;
            Ok((Operand::Fp(offset), rest))
        }
        2 => {
            let (number, rest) = any_at(bytes)?;
            Ok((Operand::Imm(number), rest))
        }
        3 => Ok((Operand::None, bytes)),
        4 => {
            let (inner, rest) = offset_at(bytes)?;
            let (outer, rest) = offset_at(rest)?;
            Ok((Operand::IndMp { inner, outer }, rest))
        }
        _ => {
            let (inner, rest) = offset_at(bytes)?;
            let (outer, rest) = offset_at(rest)?;
            Ok((Operand::IndFp { inner, outer }, rest))
        }
    }
}

#[tactic(auto, unfolding(dis_format::specs::Reading::inst_at))]
fn inst_at(bytes: &[u8]) -> Result<(Inst, &[u8]), ReadFault>
    ensures { Gives (λ x. (x.0, x.1.now)) result (inst_at bytes.now) }
{
    let (op, rest) = opcode_at(bytes)?;
    let (address, rest) = address_at(rest)?;
    let (middle, rest) = middle_at(address / 64, rest)?;
    let (src, rest) = operand_of(address / 8 % 8, rest)?;
    let (dst, rest) = operand_of(address % 8, rest)?;
    let inst = Inst {
        op,
        middle,
        src,
        dst,
    };
    Ok((inst, rest))
}

/// So many instructions.
pub fn insts_at(alloc: Global, count: u32, bytes: &[u8]) -> Result<(Vec<Inst>, &[u8]), ReadFault>
    ensures { Gives (λ x. (x.0.items, x.1.now)) result (many inst_at count bytes.now) }
{
    // An instruction takes a byte at least, so more than there are bytes left can't follow.
    let mut insts = Vec::with_capacity(alloc, (count as usize).min(bytes.len()))?;
    let mut rest = bytes;
    for _ in 0..count {
        let (inst, after) = inst_at(rest)?;
        insts.push(inst)?;
        rest = after;
    }
    Ok((insts, rest))
}
