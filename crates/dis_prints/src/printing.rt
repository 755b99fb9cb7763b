//! Calls of `print`.

ghost use Rattle.std.specs.Prelude.{◌≡◌, ◌+◌, ◌<◌, ◌^◌, Some, Ok, slice_get, vec_len, false, IfOk, OnErr};
ghost use Rattle.system_model.specs.Prints as meant;
ghost use Rattle.system_model.specs.Values.{Num};
ghost use Rattle.sys_print.specs.Sent.{Sent};
ghost use Rattle.sys_print.specs.Worlds as outside;
ghost use Rattle.ref_heap.specs.Store.{AreHeld};
ghost use Rattle.dis_meaning.specs.Process.{Frame};
ghost use Rattle.dis_memory.specs.Control as control;
ghost use Rattle.dis_memory.specs.Naming.{names};
ghost use Rattle.dis_places.specs.Frames.{view_frames, count};
ghost use Rattle.dis_places.specs.Regions.{words_here};
ghost use Rattle.dis_places.specs.View.{view_asking, view_place, view_process, view_world};
ghost use Rattle.dis_places.specs.Words.{Gives};
ghost use Rattle.dis_results.specs.Going.{moved_on, Goes};
ghost use Rattle.dis_stores.specs.Storing.{Settles};
ghost use Rattle.dis_calls.specs.Coming.{ends, Comes, DoesSend, Sends};
ghost use Rattle.dis_prints.specs.Discarded.{discarded};
ghost use Rattle.dis_prints.specs.Plans.{view_plan, answer_target, planned, carried_out, IsPrint};

use crate::discarding::{discard, is_frame};
use dis_calls::Does;
use dis_formats::printed;
use dis_places::{Asking, Fault, Halt, Memory, Place, Process, Raise, Region, Spot, Word, nth};
use dis_results::advance;
use dis_stores::store_plain;
use std::alloc::Global;
use std::mem;
use sys_print::{Printing, World, print};

/// The number of the word in which a call's frame has the address that its answer goes to.
const ANSWER: usize = 4;

// Where the answer goes: the address that stands there.
fn answer_place(memory: &Memory, process: &Process, region: Region) -> Result<(Place, i64), Halt>
    ensures { Gives (λ r. record { place = view_place r.0; at = r.1 }) result
        (answer_target (words_here memory.now.heap process.now region)) }
{
    let word = match nth(memory, process, region, ANSWER) {
        Ok(word) => word,
        Err(fault) => return Err(Halt::Fault(fault)),
    };
    match word {
        Word::Address { place, at } => Ok((place, i64::from(at))),
        Word::Refer(Some(block)) => Ok((Place::Block(block), 0)),
        Word::Refer(None) => Err(Halt::Raises(Raise::Nil)),
        Word::Plain(_) => Err(Halt::Fault(Fault::TypeCheck)),
    }
}

// The frame of the call goes, a print's answer goes to its place, and the process goes on.
fn finish_print(
    memory: &mut Memory,
    process: &mut Process,
    serial: u64,
    place: Place,
    at: i64,
    world: World,
    number: i32,
) -> Result<(), Halt>
    requires place { process.old.frame.pc + 1 < 2 ^ 64 }
    requires made { count serial (view_frames process.old.made.items) ≡ 1 }
    requires held { AreHeld memory.old.heap (names (view_process process.old)) }
    ensures goes { Goes memory.old process.old result
        (control.prints (view_world memory.old) (discarded (view_process process.old) serial) (view_place place) at
        (meant.Answers (outside.view_world world) (Num number))) memory.new process.new }
    ensures kept { OnErr result ((memory.new ≡ memory.old) × (process.new ≡ process.old)) }
{
    if is_frame(place, serial) {
        return Err(Halt::Fault(Fault::DeadAddress));
    }
    let before = mem::replace(&mut memory.outside, world);
    match store_plain(
        memory,
        process,
        Spot::Far(place, at),
        Word::Plain(number.cast_unsigned()),
    ) {
        Ok(()) => {
            discard(memory, process, serial);
            advance(process);
            Ok(())
        }
        Err(halt) => {
            memory.outside = before;
            Err(halt)
        }
    }
}

// The frame of the call goes, and the process asks.
fn ask(memory: &mut Memory, process: &mut Process, serial: u64, asking: Asking, world: World)
    requires place { process.old.frame.pc + 1 < 2 ^ 64 }
    requires held { AreHeld memory.old.heap (names (view_process process.old)) }
    ensures settles { Settles memory.old process.old
        (control.with_outside (view_world memory.old) (outside.view_world world)) memory.new process.new }
    ensures process { view_process process.new
        ≡ control.asking (discarded (view_process process.old) serial)
        (moved_on (view_process process.old)).frame (view_asking asking) }
    ensures printing { process.new.printing ≡ Some asking }
{
    discard(memory, process, serial);
    advance(process);
    process.printing = Some(asking);
    memory.outside = world;
}

/// What a print comes to, and where its answer goes.
#[derive(Drop)]
struct Plan {
    place: Place,
    at: i64,
    printing: Printing,
}

// What the print of a frame with these words comes to.
fn plan_print(
    alloc: Global,
    memory: &Memory,
    process: &Process,
    region: Region,
) -> Result<Plan, Halt>
    ensures gives { Gives view_plan result (planned (view_world memory.now) (words_here memory.now.heap process.now region)) }
    ensures is_print { IfOk result (λ p. IsPrint p.printing) }
    ensures sent { IfOk result (λ p. Sent p.printing) }
{
    let text = printed(alloc, memory, process, region)?;
    let (place, at) = answer_place(memory, process, region)?;
    let printing = print(alloc, &memory.outside, &text)?;
    Ok(Plan {
        place,
        at,
        printing,
    })
}

// It is done.
fn carry_out(
    memory: &mut Memory,
    process: &mut Process,
    serial: u64,
    plan: Plan,
) -> Result<Does, Halt>
    requires place { process.old.frame.pc + 1 < 2 ^ 64 }
    requires made { count serial (view_frames process.old.made.items) ≡ 1 }
    requires held { AreHeld memory.old.heap (names (view_process process.old)) }
    requires is_print { IsPrint plan.printing }
    requires sent { Sent plan.printing }
    ensures comes { Comes memory.old process.old result
        (carried_out (view_world memory.old) (discarded (view_process process.old) serial) (view_plan plan)) memory.new process.new }
    ensures kept { OnErr result ((memory.new ≡ memory.old) × (process.new ≡ process.old)) }
    ensures goes_on { IfOk result (λ d. ends d ≡ false) }
    ensures sent { Sends result process.new.printing }
{
    let Plan {
        place,
        at,
        printing,
    } = plan;
    match printing {
        Printing::Answers(world, number) => {
            match finish_print(memory, process, serial, place, at, world, number) {
                Ok(()) => Ok(Does::Went),
                Err(halt) => Err(halt),
            }
        }
        Printing::Requests(world, request, writing) => {
            let asking = Asking { writing, place, at };
            ask(memory, process, serial, asking, world);
            Ok(Does::Asked(request))
        }
        Printing::NoReply => unreachable!(),
    }
}

/// A call of `print`, whose frame is at this place among those that are made.
pub(crate) fn print_call(
    alloc: Global,
    memory: &mut Memory,
    process: &mut Process,
    made: usize,
) -> Result<Does, Halt>
    requires place { process.old.frame.pc + 1 < 2 ^ 64 }
    requires made { made < vec_len process.old.made }
    requires held { AreHeld memory.old.heap (names (view_process process.old)) }
    ensures comes { (f : Frame) → slice_get (view_process process.old).made made ≡ Some f → Comes memory.old process.old result
        (control.print_call (view_world memory.old) (view_process process.old) f) memory.new process.new }
    ensures kept { OnErr result ((memory.new ≡ memory.old) × (process.new ≡ process.old)) }
    ensures goes_on { IfOk result (λ d. ends d ≡ false) }
    ensures sent { Sends result process.new.printing }
{
    let serial = process.made[made].serial;
    match plan_print(alloc, memory, process, Region::Made(made)) {
        Ok(plan) => carry_out(memory, process, serial, plan),
        Err(halt) => Err(halt),
    }
}
