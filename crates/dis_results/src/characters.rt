//! The instruction on the characters of a string that makes none (Dis Virtual Machine Specification, the instructions by name): indc.

ghost use Rattle.std.specs.Prelude.{◌≡◌, ◌+◌, ◌<◌, ◌^◌, pos, OnErr};
ghost use Rattle.std.specs.Result.{result_map_both};
ghost use Rattle.dis_file.specs.declared.object.Object.{Object};
ghost use Rattle.limbo_values.specs.declared.number.Kind.TheVariants as kind;
ghost use Rattle.limbo_values.specs.Texts.{character_in};
ghost use Rattle.dis_memory.specs.Places as places;
ghost use Rattle.dis_memory.specs.Strings as strings;
ghost use Rattle.dis_places.specs.View.{view_process, view_world};
ghost use Rattle.dis_places.specs.Words.{GivesFault};
ghost use Rattle.dis_results.specs.Going.{Goes};

use crate::operands::{natural_to, number_to, source_reference};
use dis_isa::{Inst, Middle};
use dis_kinds::text_of;
use dis_places::{Fault, Halt, Memory, Process, Raise, given_of};
use limbo_values::{Kind, Number, Raised, index_in};

// The code of a character, by its index.
fn code_in(text: &[u32], at: i32) -> Result<u32, Raised>
    ensures { result_map_both pos (λ e. e) result ≡ character_in text.now at }
{
    let index = index_in(text.len(), at)?;
    Ok(text[index])
}

/// The int of a middle.
pub fn given_int(memory: &Memory, process: &Process, middle: Middle) -> Result<i32, Fault>
    ensures { GivesFault (λ n. n) result
        (places.given_of kind.Int (view_world memory.now) (view_process process.now) middle) }
{
    match given_of(memory, process, Kind::Int, middle) {
        Ok(Number::Int(n)) => Ok(n),
        Ok(Number::Byte(_)) => unreachable!(),
        Ok(Number::Big(_)) => unreachable!(),
        Err(fault) => Err(fault),
    }
}

/// `indc`: the character of an index, by its code. Where none stands, that is raised.
pub fn indc(memory: &mut Memory, process: &mut Process, inst: Inst) -> Result<(), Halt>
    requires place { process.old.frame.pc + 1 < 2 ^ 64 }
    ensures goes { (o : Object) → Goes memory.old process.old result
        (strings.indc o (view_world memory.old) (view_process process.old) inst) memory.new process.new }
    ensures kept { OnErr result ((memory.new ≡ memory.old) × (process.new ≡ process.old)) }
{
    let block = match source_reference(memory, process, inst.src) {
        Ok(block) => block,
        Err(halt) => return Err(halt),
    };
    let text = match text_of(memory, block) {
        Ok(text) => text,
        Err(fault) => return Err(Halt::Fault(fault)),
    };
    let at = match given_int(memory, process, inst.middle) {
        Ok(at) => at,
        Err(fault) => return Err(Halt::Fault(fault)),
    };
    match code_in(text, at) {
        Ok(code) => natural_to(memory, process, inst.dst, u64::from(code)),
        Err(raised) => number_to(
            memory,
            process,
            Kind::Int,
            inst.dst,
            Err(Raise::Value(raised)),
        ),
    }
}
