//! Lines of instructions.

ghost use Rattle.std.specs.Prelude.{◌≡◌, ◌++◌, ◌∷◌, OnOk, IfOk, codes};
ghost use Rattle.std.specs.Fmt.{signed_decimal};
ghost use Rattle.dis_text.specs.Listing.{marked, mark_behind, source_text, middle_text, operands, inst_line, numbered};

use crate::names::op_name;
use crate::words::{put_number, put_signed};
use dis_isa::{Inst, Middle, Operand};
use std::alloc::AllocError;

fn put_immediate(out: &mut Vec<u8>, mark: u8, number: i32) -> Result<(), AllocError>
    ensures { OnOk result (out.new.items ≡ out.old.items ++ mark ∷ (codes "$" ++ signed_decimal number)) }
{
    out.push(mark)?;
    out.extend_from_slice(b"$")?;
    put_signed(out, number)
}

/// An offset and what it counts from.
fn put_offset(out: &mut Vec<u8>, mark: u8, offset: i32, base: &[u8]) -> Result<(), AllocError>
    ensures { OnOk result (out.new.items ≡ out.old.items ++ mark ∷ (signed_decimal offset ++ base.now)) }
{
    out.push(mark)?;
    put_signed(out, offset)?;
    out.extend_from_slice(base)
}

/// An offset into a block, and in parentheses the word that names the block.
fn put_indirect(
    out: &mut Vec<u8>,
    mark: u8,
    outer: i32,
    inner: i32,
    base: &[u8],
) -> Result<(), AllocError>
    ensures { OnOk result (out.new.items ≡ out.old.items
        ++ mark ∷ (signed_decimal outer ++ (codes "(" ++ (signed_decimal inner ++ base.now)))) }
{
    out.push(mark)?;
    put_signed(out, outer)?;
    out.extend_from_slice(b"(")?;
    put_signed(out, inner)?;
    out.extend_from_slice(base)
}

/// A source or destination behind a mark, where it is present. The answer is the mark for the next operand.
fn put_operand(out: &mut Vec<u8>, mark: u8, operand: Operand) -> Result<u8, AllocError>
    ensures written { OnOk result (out.new.items ≡ out.old.items ++ marked mark (source_text operand)) }
    ensures next { IfOk result (λ next. next ≡ mark_behind mark (source_text operand)) }
{
    match operand {
        Operand::None => return Ok(mark),
        Operand::Imm(number) => put_immediate(out, mark, number)?,
        Operand::Fp(offset) => put_offset(out, mark, offset, b"(fp)")?,
        Operand::Mp(offset) => put_offset(out, mark, offset, b"(mp)")?,
        Operand::IndFp { inner, outer } => put_indirect(out, mark, outer, inner, b"(fp))")?,
        Operand::IndMp { inner, outer } => put_indirect(out, mark, outer, inner, b"(mp))")?,
    }
    Ok(b',')
}

fn put_middle(out: &mut Vec<u8>, mark: u8, middle: Middle) -> Result<u8, AllocError>
    ensures written { OnOk result (out.new.items ≡ out.old.items ++ marked mark (middle_text middle)) }
    ensures next { IfOk result (λ next. next ≡ mark_behind mark (middle_text middle)) }
{
    match middle {
        Middle::None => return Ok(mark),
        Middle::Imm(number) => put_immediate(out, mark, number)?,
        Middle::Fp(offset) => put_offset(out, mark, offset, b"(fp)")?,
        Middle::Mp(offset) => put_offset(out, mark, offset, b"(mp)")?,
    }
    Ok(b',')
}

/// The operands that are present.
fn put_operands(out: &mut Vec<u8>, inst: Inst) -> Result<(), AllocError>
    ensures { OnOk result (out.new.items ≡ out.old.items ++ marked 32 (operands inst)) }
{
    let mark = put_operand(out, b' ', inst.src)?;
    let mark = put_middle(out, mark, inst.middle)?;
    put_operand(out, mark, inst.dst)?;
    Ok(())
}

#[tactic(auto, unfolding(crate::specs::Listing::inst_line))]
fn put_inst(out: &mut Vec<u8>, pc: usize, inst: Inst) -> Result<(), AllocError>
    ensures { OnOk result (out.new.items ≡ out.old.items ++ inst_line pc inst) }
{
    put_number(out, pc)?;
    out.extend_from_slice(b" ")?;
    out.extend_from_slice(op_name(inst.op))?;
    put_operands(out, inst)?;
    out.extend_from_slice(b"\n")
}

/// A line for each instruction, from pc 0 on.
pub fn put_insts(out: &mut Vec<u8>, insts: &[Inst]) -> Result<(), AllocError>
    ensures { OnOk result (out.new.items ≡ out.old.items ++ numbered inst_line 0 insts.now) }
{
    for (pc, inst) in insts.iter().enumerate() {
        put_inst(out, pc, *inst)?;
    }
    Ok(())
}
