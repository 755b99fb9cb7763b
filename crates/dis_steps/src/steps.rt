//! One instruction of a process.

ghost use Rattle.std.specs.Prelude.{◌≡◌, ◌+◌, ◌<◌, ◌^◌, true, IfOk, OnErr};
ghost use Rattle.ref_heap.specs.Store.{AreHeld};
ghost use Rattle.dis_memory.specs.Naming.{names};
ghost use Rattle.dis_memory.specs.Step as meaning;
ghost use Rattle.dis_places.specs.View.{view_process, view_world};
ghost use Rattle.dis_places.specs.Words.{raised_text};
ghost use Rattle.dis_calls.specs.Coming.{ends, Comes, LeftAlone, Sends, Stays};
ghost use Rattle.dis_serials.specs.Given.{HasGiven};
ghost use Rattle.dis_steps.specs.Codes.{objects_of};
ghost use Rattle.dis_steps.specs.Stepping.{worked, AreLoaded, Done, Halted, Sent, Steps};

use crate::codes::{code_of, inst_at};
use crate::ending::end;
use crate::obeying::obey;
use crate::outcome::Stepped;
use dis_calls::Does;
use dis_code::Code;
use dis_places::{Halt, Memory, Process, Raise};
use inf_text::Text;
use std::alloc::{AllocError, Global};

// Runs the instruction at the process's place.
#[inline(always)]
fn run(
    alloc: Global,
    limit: usize,
    codes: &[(Text, Code)],
    memory: &mut Memory,
    process: &mut Process,
) -> Result<Does, Halt>
    requires loaded { AreLoaded memory.old.tables codes.now }
    requires given { HasGiven (view_world memory.old) (view_process process.old) }
    requires held { AreHeld memory.old.heap (names (view_process process.old)) }
    ensures comes { Comes memory.old process.old result
        (worked limit (objects_of codes.now) (view_world memory.old) (view_process process.old)) memory.new process.new }
    ensures left { OnErr result (LeftAlone memory.old process.old memory.new process.new) }
    ensures stays { IfOk result (λ d. Stays (ends d) memory.old process.old memory.new process.new) }
    ensures sent { Sends result process.new.printing }
{
    let code = match code_of(codes, memory, process) {
        Ok(code) => code,
        Err(fault) => return Err(Halt::Fault(fault)),
    };
    match inst_at(&code.object, process.frame.pc) {
        Ok(inst) => obey(alloc, limit, code, memory, process, *inst),
        Err(fault) => Err(Halt::Fault(fault)),
    }
}

// What comes behind an instruction that did this.
#[inline(always)]
fn done(memory: &mut Memory, process: &Process, does: Does) -> Stepped
    requires held { ends does ≡ true → AreHeld memory.old.heap (names (view_process process.now)) }
    ensures { Done does memory.old process.now result memory.new }
{
    match does {
        Does::Went => Stepped::Went,
        Does::Asked(request) => Stepped::Asked(request),
        Does::Ended => {
            end(memory, process);
            Stepped::Ended
        }
        Does::Broken(text) => {
            end(memory, process);
            Stepped::Broken(text)
        }
    }
}

// The text of an exception.
fn exception(alloc: Global, raise: Raise) -> Result<Text, AllocError>
    ensures { IfOk result (λ text. text ≡ raised_text raise) }
{
    let chars: Vec<char> = raise.text().chars().collect(alloc)?;
    Ok(Text::from_vec(chars))
}

// A process that raises an exception is broken, with its text. Nothing handles one yet.
fn broken(alloc: Global, memory: &mut Memory, process: &Process, raise: Raise) -> Stepped
    requires held { AreHeld memory.old.heap (names (view_process process.now)) }
    ensures { Halted (Halt.Raises raise) memory.old process.now result memory.new }
{
    match exception(alloc, raise) {
        Ok(text) => {
            end(memory, process);
            Stepped::Broken(text)
        }
        Err(_) => Stepped::NoMemory,
    }
}

// What comes instead of an instruction.
fn halted(alloc: Global, memory: &mut Memory, process: &Process, halt: Halt) -> Stepped
    requires held { AreHeld memory.old.heap (names (view_process process.now)) }
    ensures { Halted halt memory.old process.now result memory.new }
{
    match halt {
        Halt::NoMemory => Stepped::NoMemory,
        Halt::Fault(fault) => {
            end(memory, process);
            Stepped::Fault(fault)
        }
        Halt::Raises(raise) => broken(alloc, memory, process, raise),
    }
}

/// One instruction of a process, where at most `limit` frames may be called, and the cut behind it. The tables have what the objects ask
/// for, each frame has a serial that the machine gave, and all that the process refers to is held.
#[inline(always)]
pub fn step(
    alloc: Global,
    limit: usize,
    codes: &[(Text, Code)],
    memory: &mut Memory,
    process: &mut Process,
) -> Stepped
    requires loaded { AreLoaded memory.old.tables codes.now }
    requires given { HasGiven (view_world memory.old) (view_process process.old) }
    requires held { AreHeld memory.old.heap (names (view_process process.old)) }
    ensures steps { Steps memory.old process.old result
        (meaning.step limit (objects_of codes.now) (view_world memory.old) (view_process process.old)) memory.new process.new }
    ensures sent { Sent result process.new.printing }
{
    match run(alloc, limit, codes, memory, process) {
        Ok(does) => done(memory, process, does),
        Err(halt) => halted(alloc, memory, process, halt),
    }
}
