//! Instructions that count (Dis Virtual Machine Specification, the instructions by name): lenc, lena, lenl.

ghost use Rattle.std.specs.Prelude.{◌≡◌, ◌+◌, ◌<◌, ◌^◌, pos, OnErr};
ghost use Rattle.dis_file.specs.declared.object.Object.{Object};
ghost use Rattle.limbo_values.specs.declared.number.Kind.TheVariants as kind;
ghost use Rattle.limbo_values.specs.Numbers.{wrapped};
ghost use Rattle.dis_memory.specs.Arrays as arrays;
ghost use Rattle.dis_memory.specs.Lists as lists;
ghost use Rattle.dis_memory.specs.Strings as strings;
ghost use Rattle.dis_places.specs.View.{view_process, view_world};
ghost use Rattle.dis_results.specs.Going.{Goes};

use crate::operands::{natural_to, number_to, source_reference};
use dis_isa::Inst;
use dis_kinds::{elements_of, list_length, text_of};
use dis_places::{Halt, Memory, Process};
use limbo_values::{Kind, Number};

/// `lenc`: how many characters a string has.
pub fn lenc(memory: &mut Memory, process: &mut Process, inst: Inst) -> Result<(), Halt>
    requires place { process.old.frame.pc + 1 < 2 ^ 64 }
    ensures goes { (o : Object) → Goes memory.old process.old result
        (strings.lenc o (view_world memory.old) (view_process process.old) inst) memory.new process.new }
    ensures kept { OnErr result ((memory.new ≡ memory.old) × (process.new ≡ process.old)) }
{
    let block = match source_reference(memory, process, inst.src) {
        Ok(block) => block,
        Err(halt) => return Err(halt),
    };
    let count = match text_of(memory, block) {
        Ok(text) => text.len() as u64,
        Err(fault) => return Err(Halt::Fault(fault)),
    };
    natural_to(memory, process, inst.dst, count)
}

/// `lena`: how many elements an array has.
pub fn lena(memory: &mut Memory, process: &mut Process, inst: Inst) -> Result<(), Halt>
    requires place { process.old.frame.pc + 1 < 2 ^ 64 }
    ensures goes { (o : Object) → Goes memory.old process.old result
        (arrays.lena o (view_world memory.old) (view_process process.old) inst) memory.new process.new }
    ensures kept { OnErr result ((memory.new ≡ memory.old) × (process.new ≡ process.old)) }
{
    let block = match source_reference(memory, process, inst.src) {
        Ok(block) => block,
        Err(halt) => return Err(halt),
    };
    match elements_of(memory, block) {
        Ok(Some(elements)) => natural_to(memory, process, inst.dst, u64::from(elements.long)),
        Ok(None) => natural_to(memory, process, inst.dst, 0),
        Err(fault) => Err(Halt::Fault(fault)),
    }
}

// What is left of a number in the bits of an int.
fn wrap(count: u64) -> i32
    ensures { result ≡ wrapped kind.Int (pos count) }
{
    ((count % (1 << 32)) as u32).cast_signed()
}

/// `lenl`: how many cells a list has, as an int: what is left of that number in its bits.
pub fn lenl(memory: &mut Memory, process: &mut Process, inst: Inst) -> Result<(), Halt>
    requires place { process.old.frame.pc + 1 < 2 ^ 64 }
    ensures goes { (o : Object) → Goes memory.old process.old result
        (lists.lenl o (view_world memory.old) (view_process process.old) inst) memory.new process.new }
    ensures kept { OnErr result ((memory.new ≡ memory.old) × (process.new ≡ process.old)) }
{
    let block = match source_reference(memory, process, inst.src) {
        Ok(block) => block,
        Err(halt) => return Err(halt),
    };
    match list_length(memory, block) {
        Ok(count) => number_to(
            memory,
            process,
            Kind::Int,
            inst.dst,
            Ok(Number::Int(wrap(count))),
        ),
        Err(fault) => Err(Halt::Fault(fault)),
    }
}
