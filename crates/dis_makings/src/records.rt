//! The instruction that makes a record (Dis Virtual Machine Specification, the instructions by name): new, newz.

ghost use Rattle.std.specs.Prelude.{◌≡◌, ◌+◌, ◌<◌, ◌^◌, OnErr};
ghost use Rattle.ref_heap.specs.Store.{AreHeld};
ghost use Rattle.dis_memory.specs.Arrays as arrays;
ghost use Rattle.dis_memory.specs.Naming.{names};
ghost use Rattle.dis_places.specs.View.{view_process, view_world};
ghost use Rattle.dis_results.specs.Going.{Goes};

use crate::giving::give_record;
use dis_code::{Code, source_type};
use dis_isa::Inst;
use dis_places::{Halt, Memory, Process, spot_of};
use std::alloc::Global;

/// `new` and `newz`: a new record of the source's type.
pub fn new(
    alloc: Global,
    code: &Code,
    memory: &mut Memory,
    process: &mut Process,
    inst: Inst,
) -> Result<(), Halt>
    requires place { process.old.frame.pc + 1 < 2 ^ 64 }
    requires held { AreHeld memory.old.heap (names (view_process process.old)) }
    ensures goes { Goes memory.old process.old result
        (arrays.new code.now.object (view_world memory.old) (view_process process.old) inst) memory.new process.new }
    ensures kept { OnErr result ((memory.new ≡ memory.old) × (process.new ≡ process.old)) }
{
    let desc = match source_type(&code.object, inst.src) {
        Ok(desc) => desc,
        Err(fault) => return Err(Halt::Fault(fault)),
    };
    match spot_of(memory, process, inst.dst) {
        Ok(spot) => give_record(alloc, memory, process, spot, desc),
        Err(halt) => Err(halt),
    }
}
