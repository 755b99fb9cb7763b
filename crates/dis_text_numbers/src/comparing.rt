//! Comparisons of strings (Dis Virtual Machine Specification, the instructions by name): beqc, bnec, bltc, blec, bgtc, bgec.

ghost use Rattle.std.specs.Prelude.{◌≡◌, ◌+◌, ◌<◌, ◌^◌, OnErr, if◌then◌else◌};
ghost use Rattle.limbo_values.specs.Texts.{text_compared};
ghost use Rattle.dis_memory.specs.Strings as strings;
ghost use Rattle.dis_places.specs.View.{view_process, view_world};
ghost use Rattle.dis_code.specs.Jumps.{gone_to};
ghost use Rattle.dis_results.specs.Going.{moved_on, Goes};

use dis_code::{Code, jump_to, target};
use dis_isa::Inst;
use dis_places::{Halt, Memory, Process};
use dis_results::advance;
use dis_strings::{middle_text, source_text};
use limbo_values::Comparison;

// Whether a comparison holds of two strings, by the codes of their characters.
fn is_met(comparison: Comparison, left: &[u32], right: &[u32]) -> bool
    ensures { result ≡ text_compared comparison left.now right.now }
{
    comparison.is_met(left.cmp(right))
}

// The process goes on there, or with the next instruction.
fn branch(process: &mut Process, taken: bool, pc: usize)
    requires { process.old.frame.pc + 1 < 2 ^ 64 }
    ensures { view_process process.new
        ≡ (if taken then gone_to (view_process process.old) pc else moved_on (view_process process.old)) }
{
    if taken {
        jump_to(process, pc);
    } else {
        advance(process);
    }
}

/// `beqc` and its like, by the comparison: the process goes on at the destination where the source stands so to the middle.
pub fn compares(
    code: &Code,
    memory: &mut Memory,
    process: &mut Process,
    comparison: Comparison,
    inst: Inst,
) -> Result<(), Halt>
    requires place { process.old.frame.pc + 1 < 2 ^ 64 }
    ensures goes { Goes memory.old process.old result
        (strings.compares code.now.object (view_world memory.old) (view_process process.old) inst comparison) memory.new process.new }
    ensures kept { OnErr result ((memory.new ≡ memory.old) × (process.new ≡ process.old)) }
{
    memory.heap.stands();
    let left = match source_text(memory, process, inst.src) {
        Ok(text) => text,
        Err(halt) => return Err(halt),
    };
    let right = match middle_text(memory, process, inst.middle) {
        Ok(text) => text,
        Err(fault) => return Err(Halt::Fault(fault)),
    };
    let taken = is_met(comparison, left, right);
    match target(&code.object, inst.dst) {
        Ok(pc) => {
            branch(process, taken, pc);
            Ok(())
        }
        Err(fault) => Err(Halt::Fault(fault)),
    }
}
