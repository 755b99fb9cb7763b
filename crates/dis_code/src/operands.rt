//! Operands that are immediates (Dis Virtual Machine Specification, "Operand formats"): types, tables, places in the code.

ghost use Rattle.std.specs.Prelude.{◌≡◌};
ghost use Rattle.dis_memory.specs.Operands as meaning;
ghost use Rattle.dis_code.specs.Jumps.{gone_to};
ghost use Rattle.dis_places.specs.View.{view_process};
ghost use Rattle.dis_places.specs.Words.{GivesFault};

use dis_file::{Object, TypeDesc};
use dis_isa::{Middle, Operand};
use dis_places::{Fault, Process};

// A number that isn't below 0.
#[inline(always)]
fn natural(n: i32) -> Result<u32, Fault>
    ensures { GivesFault (λ n. n) result (meaning.immediate (Operand.Imm n)) }
{
    match u32::try_from(n) {
        Ok(n) => Ok(n),
        Err(_) => Err(Fault::TypeCheck),
    }
}

/// The number of an immediate source or destination.
#[inline(always)]
pub fn immediate(operand: Operand) -> Result<u32, Fault>
    ensures { GivesFault (λ n. n) result (meaning.immediate operand) }
{
    match operand {
        Operand::Imm(n) => natural(n),
        _ => Err(Fault::TypeCheck),
    }
}

/// The number of an immediate middle.
pub fn middle_immediate(middle: Middle) -> Result<u32, Fault>
    ensures { GivesFault (λ n. n) result (meaning.middle_immediate middle) }
{
    match middle {
        Middle::Imm(n) => natural(n),
        _ => Err(Fault::TypeCheck),
    }
}

/// The type of this number.
pub fn type_at(object: &Object, number: u32) -> Result<&TypeDesc, Fault>
    ensures { GivesFault (λ desc. desc.now) result (meaning.type_of object.now number) }
{
    match object.types.as_slice().get(number as usize) {
        Some(desc) => Ok(desc),
        None => Err(Fault::TypeCheck),
    }
}

/// The type whose number a source is.
pub fn source_type(object: &Object, source: Operand) -> Result<&TypeDesc, Fault>
    ensures { GivesFault (λ desc. desc.now) result (meaning.source_type object.now source) }
{
    match immediate(source) {
        Ok(number) => type_at(object, number),
        Err(fault) => Err(fault),
    }
}

/// The type whose number a middle is.
pub fn middle_type(object: &Object, middle: Middle) -> Result<&TypeDesc, Fault>
    ensures { GivesFault (λ desc. desc.now) result (meaning.middle_type object.now middle) }
{
    match middle_immediate(middle) {
        Ok(number) => type_at(object, number),
        Err(fault) => Err(fault),
    }
}

/// A place in the code.
#[inline(always)]
pub fn target(object: &Object, destination: Operand) -> Result<usize, Fault>
    ensures { GivesFault (λ pc. pc) result (meaning.target object.now destination) }
{
    let pc = match immediate(destination) {
        Ok(pc) => pc as usize,
        Err(fault) => return Err(fault),
    };
    if pc < object.insts.len() {
        Ok(pc)
    } else {
        Err(Fault::BadJump)
    }
}

/// The process goes on at a place in the code. What it printed is answered no more.
#[inline(always)]
pub fn jump_to(process: &mut Process, pc: usize)
    ensures { view_process process.new ≡ gone_to (view_process process.old) pc }
{
    process.frame.pc = pc;
    // Few processes wait for a reply: of most nothing is let go.
    if process.printing.is_some() {
        process.printing = None;
    }
}
