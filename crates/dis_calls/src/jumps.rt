//! Jumps.

ghost use Rattle.std.specs.Prelude.{◌≡◌, ℕ, OnErr};
ghost use Rattle.dis_memory.specs.Control as control;
ghost use Rattle.dis_places.specs.View.{view_process, view_world};
ghost use Rattle.dis_results.specs.Going.{Goes};

use dis_code::{Code, jump_to, target};
use dis_isa::Inst;
use dis_places::{Halt, Memory, Process};

/// `jmp`: the process goes on at the destination.
///
/// # Errors
/// The fault that the definition has; then nothing has changed.
pub fn jmp(code: &Code, memory: &Memory, process: &mut Process, inst: Inst) -> Result<(), Halt>
    ensures goes { (limit : ℕ) → Goes memory.now process.old result
        (control.jmp limit code.now.object (view_world memory.now) (view_process process.old) inst) memory.now process.new }
    ensures kept { OnErr result (process.new ≡ process.old) }
{
    memory.heap.stands();
    match target(&code.object, inst.dst) {
        Ok(pc) => {
            jump_to(process, pc);
            Ok(())
        }
        Err(fault) => Err(Halt::Fault(fault)),
    }
}
