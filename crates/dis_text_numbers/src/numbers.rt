//! Numbers as strings and back (Dis Virtual Machine Specification, the instructions by name): cvtwc, cvtlc, cvtcw, cvtcl.

ghost use Rattle.std.specs.Prelude.{◌≡◌, ◌+◌, ◌<◌, ◌^◌, OnErr};
ghost use Rattle.dis_file.specs.declared.object.Object.{Object};
ghost use Rattle.ref_heap.specs.Store.{AreHeld};
ghost use Rattle.dis_memory.specs.Naming.{names};
ghost use Rattle.dis_memory.specs.Strings as strings;
ghost use Rattle.dis_places.specs.View.{view_process, view_world};
ghost use Rattle.dis_results.specs.Going.{Goes};

use crate::codes::{number_read, number_text};
use dis_isa::Inst;
use dis_places::{Halt, Memory, Process, source_of};
use dis_results::number_to;
use dis_strings::{source_text, text_to};
use limbo_values::Kind;
use std::alloc::Global;

/// `cvtwc` and `cvtlc`, by the kind of the number: a number as a string.
pub fn text_of_number(
    alloc: Global,
    memory: &mut Memory,
    process: &mut Process,
    kind: Kind,
    inst: Inst,
) -> Result<(), Halt>
    requires place { process.old.frame.pc + 1 < 2 ^ 64 }
    requires held { AreHeld memory.old.heap (names (view_process process.old)) }
    ensures goes { (o : Object) → Goes memory.old process.old result
        (strings.text_of_number o (view_world memory.old) (view_process process.old) inst kind) memory.new process.new }
    ensures kept { OnErr result ((memory.new ≡ memory.old) × (process.new ≡ process.old)) }
{
    let number = match source_of(memory, process, kind, inst.src) {
        Ok(number) => number,
        Err(halt) => return Err(halt),
    };
    match number_text(alloc, number) {
        Ok(text) => text_to(memory, process, inst.dst, Ok(text)),
        Err(_) => Err(Halt::NoMemory),
    }
}

/// `cvtcw` and `cvtcl`, by the kind of the number: the number at the front of a string, 0 where none is.
pub fn number_of_text(
    memory: &mut Memory,
    process: &mut Process,
    kind: Kind,
    inst: Inst,
) -> Result<(), Halt>
    requires place { process.old.frame.pc + 1 < 2 ^ 64 }
    ensures goes { (o : Object) → Goes memory.old process.old result
        (strings.number_of_text o (view_world memory.old) (view_process process.old) inst kind) memory.new process.new }
    ensures kept { OnErr result ((memory.new ≡ memory.old) × (process.new ≡ process.old)) }
{
    match source_text(memory, process, inst.src) {
        Ok(text) => {
            let number = number_read(kind, text);
            number_to(memory, process, kind, inst.dst, Ok(number))
        }
        Err(halt) => Err(halt),
    }
}
