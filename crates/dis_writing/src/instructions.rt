//! Instructions (dis(6), "Code section").

ghost use Rattle.std.specs.Prelude.{◌≡◌, ◌∷◌, ◌++◌, []};
ghost use Rattle.std.specs.List.{flat_map};
ghost use Rattle.dis_format.specs.Opcodes.{opcode_of};
ghost use Rattle.dis_format.specs.Parts.{address, middle_mode, mode, middle_parts, operand_parts, inst_parts, number};
ghost use Rattle.dis_format.specs.Operands.{from_zero};
ghost use Rattle.dis_format.specs.Writing.{Writes, put_all};

use crate::fields::{put_any, put_byte, put_offset, put_short_number, put_short_offset};
use dis_format::FileFault;
use dis_isa::{Inst, Middle, Op, Operand, code_of};

#[tactic(auto, using(dis_isa::proofs::Table::tag_is_place))]
fn opcode(op: Op) -> u8
    ensures { result ≡ opcode_of op }
{
    code_of(op)
}

fn middle_mode(middle: Middle) -> u8
    ensures { result ≡ middle_mode middle }
{
    match middle {
        Middle::None => 0,
        Middle::Imm(_) => 1,
        Middle::Fp(_) => 2,
        Middle::Mp(_) => 3,
    }
}

fn mode(operand: Operand) -> u8
    ensures { result ≡ mode operand }
{
    match operand {
        Operand::Mp(_) => 0,
        Operand::Fp(_) => 1,
        Operand::Imm(_) => 2,
        Operand::None => 3,
        Operand::IndMp { .. } => 4,
        Operand::IndFp { .. } => 5,
    }
}

/// The address byte, which says what the operands are.
fn address(inst: Inst) -> u8
    ensures { result ≡ address inst }
{
    64 * middle_mode(inst.middle) + 8 * mode(inst.src) + mode(inst.dst)
}

fn put_middle(out: &mut Vec<u8>, middle: Middle) -> Result<(), FileFault>
    ensures { Writes (λ _. out.new.items) result (put_all out.old.items (middle_parts middle)) }
{
    match middle {
        Middle::None => Ok(()),
        Middle::Imm(number) => put_short_number(out, number),
        Middle::Fp(offset) => put_short_offset(out, offset),
        Middle::Mp(offset) => put_short_offset(out, offset),
    }
}

fn put_offsets(out: &mut Vec<u8>, inner: i32, outer: i32) -> Result<(), FileFault>
    ensures { Writes (λ _. out.new.items) result (put_all out.old.items (number from_zero inner ∷ number from_zero outer ∷ [])) }
{
    put_offset(out, inner)?;
    put_offset(out, outer)
}

fn put_operand(out: &mut Vec<u8>, operand: Operand) -> Result<(), FileFault>
    ensures { Writes (λ _. out.new.items) result (put_all out.old.items (operand_parts operand)) }
{
    match operand {
        Operand::None => Ok(()),
        Operand::Imm(number) => put_any(out, number),
        Operand::Fp(offset) => put_offset(out, offset),
        Operand::Mp(offset) => put_offset(out, offset),
        Operand::IndFp { inner, outer } => put_offsets(out, inner, outer),
        Operand::IndMp { inner, outer } => put_offsets(out, inner, outer),
    }
}

#[tactic(auto, using(crate::proofs::Steps::sections))]
fn put_operands(out: &mut Vec<u8>, src: Operand, dst: Operand) -> Result<(), FileFault>
    ensures { Writes (λ _. out.new.items) result (put_all out.old.items (operand_parts src ++ operand_parts dst)) }
{
    put_operand(out, src)?;
    put_operand(out, dst)
}

#[tactic(auto, using(crate::proofs::Steps::sections), unfolding(dis_format::specs::Parts::inst_parts))]
fn put_inst(out: &mut Vec<u8>, inst: Inst) -> Result<(), FileFault>
    ensures { Writes (λ _. out.new.items) result (put_all out.old.items (inst_parts inst)) }
{
    put_byte(out, opcode(inst.op))?;
    put_byte(out, address(inst))?;
    put_middle(out, inst.middle)?;
    put_operands(out, inst.src, inst.dst)
}

pub fn put_insts(out: &mut Vec<u8>, insts: &[Inst]) -> Result<(), FileFault>
    ensures { Writes (λ _. out.new.items) result (put_all out.old.items (flat_map inst_parts insts.now)) }
{
    for inst in insts {
        put_inst(out, *inst)?;
    }
    Ok(())
}
