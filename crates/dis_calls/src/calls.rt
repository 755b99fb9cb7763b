//! Calls and returns.

ghost use Rattle.std.specs.Prelude.{◌≡◌, ℕ, ◌+◌, ◌<◌, ◌^◌, pos, codes, slice_get, vec_len, vec_capacity};
ghost use Rattle.std.specs.Prelude.{Ok, Some, IfOk, IfErr, OnErr};
ghost use Rattle.dis_isa.specs.declared.inst.Inst.{Inst as AnyInst};
ghost use Rattle.dis_file.specs.declared.object.Object.{Object};
ghost use Rattle.ref_heap.specs.Store.{AreHeld};
ghost use Rattle.dis_meaning.specs.Process.{Frame};
ghost use Rattle.dis_meaning.specs.Step as meaning;
ghost use Rattle.dis_meaning.specs.Words as words;
ghost use Rattle.dis_memory.specs.Blocks as blocks;
ghost use Rattle.dis_memory.specs.Control as control;
ghost use Rattle.dis_memory.specs.Naming.{names};
ghost use Rattle.dis_places.specs.View.{view_process, view_world};
ghost use Rattle.dis_places.specs.Words.{number_of, view_word};
ghost use Rattle.dis_calls.specs.Coming.{ends, Comes, DoesSend, Sends, StandsStill, Stays};
ghost use Rattle.dis_calls.specs.Made.{entered, no_frame, Made};

use crate::letting::let_go;
use crate::outcome::Does;
use dis_code::{Code, target};
use dis_isa::Inst;
use dis_places::{Fault, Halt, Memory, Place, Process, Ref, Slot, Word, find, source_word};
use inf_text::Text;
use std::alloc::{AllocError, Global};
use std::mem;

/// `ret`: the frame goes, with all that it refers to, and the frame below goes on. The first function's return ends the process.
pub fn give_back(memory: &mut Memory, process: &mut Process) -> Does
    requires held { AreHeld memory.old.heap (names (view_process process.old)) }
    ensures comes { (limit : ℕ) (o : Object) (i : AnyInst) → Comes memory.old process.old (Ok result)
        (control.ret limit o (view_world memory.old) (view_process process.old) i) memory.new process.new }
    ensures stays { Stays (ends result) memory.old process.old memory.new process.new }
    ensures silent { DoesSend result process.new.printing }
{
    memory.heap.stands();
    if process.below.is_empty() {
        return Does::Ended;
    }
    match process.below.pop() {
        Some(frame) => {
            let gone = mem::replace(&mut process.frame, frame);
            process.printing = None;
            let_go(&mut memory.heap, &gone);
            Does::Went
        }
        None => unreachable!(),
    }
}

// The text of a process that breaks at a call.
fn overflow(alloc: Global) -> Result<Text, AllocError>
    ensures { IfOk result (λ t. t ≡ codes "stack overflow") }
{
    let chars: Vec<char> = "stack overflow".chars().collect(alloc)?;
    Ok(Text::from_vec(chars))
}

// The place, among the frames that are made, of the one of this serial, for an address so many bytes within it.
fn made_of(process: &Process, serial: u64, at: u32) -> Result<usize, Fault>
    ensures found { IfOk result (λ k. Made process.now k (meaning.frame_of (view_process process.now) serial (pos at))) }
    ensures wrong { IfErr result (λ f. meaning.frame_of (view_process process.now) serial (pos at) ≡ words.Wrong (number_of f)) }
{
    match find(process, serial) {
        Slot::Made(k) => if at == 0 {
            Ok(k)
        } else {
            Err(Fault::TypeCheck)
        },
        Slot::Running => Err(Fault::TypeCheck),
        Slot::Below(_) => Err(Fault::TypeCheck),
        Slot::Gone => Err(Fault::DeadAddress),
    }
}

// No block is a frame.
fn no_frame(memory: &Memory, block: Ref) -> Fault
    ensures { words.◌>>=◌ (blocks.block (view_world memory.now) block.serial) (λ b. no_frame) ≡ words.Wrong (number_of result) }
{
    memory.heap.stands();
    match memory.heap.kind_of(block) {
        Ok(_) => Fault::TypeCheck,
        Err(_) => Fault::DeadAddress,
    }
}

/// The place, among the frames that are made, of the one whose address a word is.
///
/// # Errors
/// The fault that the definition has: the word is no address, that of a block, of a place within a frame, or of a frame that was called
/// already or isn't there.
pub fn made_at(memory: &Memory, process: &Process, word: Word) -> Result<usize, Fault>
    ensures found { IfOk result (λ k. Made process.now k
        (control.frame_at (view_world memory.now) (view_process process.now) (view_word word))) }
    ensures wrong { IfErr result (λ f.
        control.frame_at (view_world memory.now) (view_process process.now) (view_word word) ≡ words.Wrong (number_of f)) }
{
    match word {
        Word::Address { place, at } => match place {
            Place::Frame(serial) => made_of(process, serial, at),
            Place::Block(block) => Err(no_frame(memory, block)),
        },
        Word::Plain(_) => Err(Fault::TypeCheck),
        Word::Refer(_) => Err(Fault::TypeCheck),
    }
}

// The frame that is made goes on there, and the frame that ran waits for it.
fn enter(process: &mut Process, made: usize, pc: usize)
    requires made { made < vec_len process.old.made }
    requires place { process.old.frame.pc + 1 < 2 ^ 64 }
    requires room { vec_len process.old.below < vec_capacity process.old.below }
    ensures enters { (f : Frame) → slice_get (view_process process.old).made made ≡ Some f
        → view_process process.new ≡ entered (view_process process.old) f pc }
    ensures names { (n : ℕ) → names (view_process process.new) n ≡ names (view_process process.old) n }
{
    let mut frame = process.made.remove(made);
    frame.pc = pc;
    let mut caller = mem::replace(&mut process.frame, frame);
    caller.pc += 1;
    process.below.push_reserved(caller);
    process.printing = None;
}

/// `call`: the frame that calls waits below the one that is called. There are at most so many; one more breaks the process.
///
/// # Errors
/// The fault that the definition has, what it raises, or want of memory; then nothing has changed.
pub fn call(
    alloc: Global,
    limit: usize,
    code: &Code,
    memory: &Memory,
    process: &mut Process,
    inst: Inst,
) -> Result<Does, Halt>
    requires place { process.old.frame.pc + 1 < 2 ^ 64 }
    ensures comes { Comes memory.now process.old result
        (control.call limit code.now.object (view_world memory.now) (view_process process.old) inst) memory.now process.new }
    ensures stays { IfOk result (λ d. Stays (ends d) memory.now process.old memory.now process.new) }
    ensures kept { OnErr result (StandsStill process.old process.new) }
    ensures silent { Sends result process.new.printing }
{
    memory.heap.stands();
    let word = source_word(memory, process, inst.src)?;
    let made = made_at(memory, process, word)?;
    let pc = target(&code.object, inst.dst)?;
    if process.below.len() + 1 >= limit {
        return Ok(Does::Broken(overflow(alloc)?));
    }
    match process.below.reserve(1) {
        Ok(()) => {
            enter(process, made, pc);
            Ok(Does::Went)
        }
        Err(_) => Err(Halt::NoMemory),
    }
}
