//! Replies to prints.

ghost use Rattle.std.specs.Prelude.{◌≡◌, true};
ghost use Rattle.system_model.specs.Prints as meant;
ghost use Rattle.system_model.specs.Values.{Num};
ghost use Rattle.sys_print.specs.Worlds as outside;
ghost use Rattle.dis_memory.specs.Control as control;
ghost use Rattle.dis_places.specs.View.{view_place, view_process, view_world};
ghost use Rattle.dis_prints.specs.Hearing.{does_nothing, Hears, SendsAgain};

use crate::heard::Heard;
use dis_places::{Asking, Halt, Memory, Place, Process, Spot, Word};
use dis_stores::store_plain;
use std::alloc::Global;
use std::mem;
use styx_msg::Rmsg;
use sys_print::{Printing, World, hear};

// The answer goes to its place, and the process goes on.
fn take_answer(
    memory: &mut Memory,
    process: &mut Process,
    place: Place,
    at: i64,
    world: World,
    number: i32,
) -> Heard
    ensures hears { Hears memory.old process.old result
        (control.hears (view_world memory.old) (view_process process.old) (view_place place) at
        (meant.Answers (outside.view_world world) (Num number))) memory.new process.new }
    ensures kept { does_nothing result ≡ true → (memory.new ≡ memory.old) × (process.new ≡ process.old) }
    ensures sent { SendsAgain result process.new.printing }
{
    let before = mem::replace(&mut memory.outside, world);
    match store_plain(
        memory,
        process,
        Spot::Far(place, at),
        Word::Plain(number.cast_unsigned()),
    ) {
        Ok(()) => {
            memory.heap.stands();
            process.printing = None;
            Heard::Went
        }
        Err(halt) => {
            memory.outside = before;
            match halt {
                Halt::Fault(fault) => Heard::Fault(fault),
                Halt::NoMemory => Heard::NoMemory,
                Halt::Raises(_) => unreachable!(),
            }
        }
    }
}

/// What a reply does to a process. Where it is refused, for want of memory too, or where its answer has no place, nothing has changed.
pub fn answer(alloc: Global, reply: &Rmsg, memory: &mut Memory, process: &mut Process) -> Heard
    ensures hears { Hears memory.old process.old result
        (control.answer reply.now (view_world memory.old) (view_process process.old)) memory.new process.new }
    ensures kept { does_nothing result ≡ true → (memory.new ≡ memory.old) × (process.new ≡ process.old) }
    ensures sent { SendsAgain result process.new.printing }
{
    memory.heap.stands();
    let Some(asking) = &process.printing else {
        return Heard::Refused;
    };
    let place = asking.place;
    let at = asking.at;
    let Ok(printing) = hear(alloc, reply, &memory.outside, &asking.writing) else {
        return Heard::NoMemory;
    };
    match printing {
        Printing::Answers(world, number) => take_answer(memory, process, place, at, world, number),
        Printing::Requests(world, request, writing) => {
            memory.outside = world;
            process.printing = Some(Asking { writing, place, at });
            Heard::Asked(request)
        }
        Printing::NoReply => Heard::Refused,
    }
}
