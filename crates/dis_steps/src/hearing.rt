//! A reply to a process that waits for it.

ghost use Rattle.std.specs.Prelude.{◌≡◌, true};
ghost use Rattle.ref_heap.specs.Store.{AreHeld};
ghost use Rattle.dis_memory.specs.Naming.{names};
ghost use Rattle.dis_memory.specs.Control as control;
ghost use Rattle.dis_places.specs.View.{view_process, view_world};
ghost use Rattle.dis_prints.specs.Hearing.{SendsAgain};
ghost use Rattle.dis_steps.specs.Hearing.{is_fault, Cleared, Replies};

use crate::ending::end;
use dis_places::{Memory, Process};
use dis_prints::{Heard, answer};
use std::alloc::Global;
use styx_msg::Rmsg;

// What comes behind a reply that came to this: a process that has no place for its answer is over.
fn clear(memory: &mut Memory, process: &Process, heard: &Heard)
    requires held { is_fault heard.now ≡ true → AreHeld memory.old.heap (names (view_process process.now)) }
    ensures { Cleared heard.now memory.old process.now memory.new }
{
    if let Heard::Fault(_) = heard {
        end(memory, process);
    }
}

/// What a reply does to a process that waits for it, and the cut behind it. All that the process refers to is held. Where the reply is
/// refused, for want of memory too, nothing has changed.
pub fn hear(alloc: Global, reply: &Rmsg, memory: &mut Memory, process: &mut Process) -> Heard
    requires held { AreHeld memory.old.heap (names (view_process process.old)) }
    ensures hears { Replies memory.old process.old result
        (control.answer reply.now (view_world memory.old) (view_process process.old)) memory.new process.new }
    ensures sent { SendsAgain result process.new.printing }
{
    let heard = answer(alloc, reply, memory, process);
    clear(memory, process, &heard);
    heard
}
