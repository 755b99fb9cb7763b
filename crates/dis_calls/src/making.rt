//! Frames that are made.

ghost use Rattle.std.specs.Prelude.{◌≡◌, ℕ, ◌+◌, ◌<◌, ◌^◌, false, map, IfErr, IfOk, OnErr, vec_len, vec_capacity};
ghost use Rattle.ref_heap.specs.declared.word.Word.{Word as AnyWord};
ghost use Rattle.ref_heap.specs.Store.{AreHeld};
ghost use Rattle.ref_heap.specs.Words.{cell_of, is_reference, naming};
ghost use Rattle.dis_meaning.specs.Words.{Found, Wrong, blank as blank_of};
ghost use Rattle.dis_memory.specs.Control as control;
ghost use Rattle.dis_memory.specs.Naming.{names};
ghost use Rattle.dis_memory.specs.Places as places;
ghost use Rattle.dis_places.specs.View.{view_process, view_spot, view_world};
ghost use Rattle.dis_places.specs.Words.{number_of, view_word, view_words};
ghost use Rattle.dis_results.specs.Going.{Goes};
ghost use Rattle.dis_stores.specs.Storing.{rested, IsNoMemory};
ghost use Rattle.dis_calls.specs.Coming.{LeftAlone};
ghost use Rattle.dis_serials.specs.Given.{HasGiven};
ghost use Rattle.dis_calls.specs.Made.{blank_frame, frame_stored, with_made, without_last};

use dis_code::{Code, source_type};
use dis_file::TypeDesc;
use dis_isa::Inst;
use dis_places::{
    Fault, Frame, Halt, Memory, Place, Process, Ref, Spot, Word, blank, read, spot_of,
};
use dis_results::advance;
use dis_stores::{hold, store_plain};
use std::alloc::Global;

// A frame of these words is made, in the instance of the one that runs.
fn add_frame(memory: &Memory, process: &mut Process, words: Vec<Word>)
    requires room { vec_len process.old.made < vec_capacity process.old.made }
    requires given { HasGiven (view_world memory.now) (view_process process.old) }
    ensures process { view_process process.new
        ≡ with_made (view_process process.old)
        (blank_frame memory.now.frames process.old.frame.instance.serial (view_words words.items)) }
    ensures place { process.new.frame.pc ≡ process.old.frame.pc }
    ensures printing { process.new.printing ≡ process.old.printing }
{
    let frame = Frame {
        serial: memory.frames,
        instance: process.frame.instance,
        pc: 0,
        words,
    };
    process.made.push_reserved(frame);
}

// The frame that was made last is no more.
fn take_frame(process: &mut Process)
    ensures process { view_process process.new ≡ without_last (view_process process.old) }
    ensures printing { process.new.printing ≡ process.old.printing }
{
    let _frame = process.made.pop();
}

// The address of a new frame is stored where a plain word stands, the frame is made, and the process goes on.
fn finish_frame(
    memory: &mut Memory,
    process: &mut Process,
    spot: Spot,
    old: Word,
    words: Vec<Word>,
) -> Result<(), Halt>
    requires there { places.read (view_world memory.old) (view_process process.old) (view_spot spot) ≡ Found (view_word old) }
    requires plain { is_reference (cell_of old) ≡ false }
    requires place { process.old.frame.pc + 1 < 2 ^ 64 }
    requires serial { memory.old.frames + 1 < 2 ^ 64 }
    requires given { HasGiven (view_world memory.old) (view_process process.old) }
    requires held { AreHeld memory.old.heap (names (view_process process.old)) }
    requires room { vec_len process.old.made < vec_capacity process.old.made }
    requires bare { (n : ℕ) → naming (map cell_of words.items) n ≡ 0 }
    ensures goes { Goes memory.old process.old result
        (frame_stored (view_world memory.old) (view_process process.old) (view_spot spot) (view_words words.items))
        memory.new process.new }
    ensures wants { IfErr result IsNoMemory }
    ensures kept { OnErr result (LeftAlone memory.old process.old memory.new process.new) }
{
    memory.heap.stands();
    let instance = process.frame.instance;
    match hold(&mut memory.heap, Some(instance)) {
        Ok(()) => {}
        Err(halt) => return Err(halt),
    }
    add_frame(memory, process, words);
    let address = Word::Address {
        place: Place::Frame(memory.frames),
        at: 0,
    };
    match store_plain(memory, process, spot, address) {
        Ok(()) => {
            memory.frames += 1;
            advance(process);
            Ok(())
        }
        Err(halt) => {
            take_frame(process);
            memory.heap.stands();
            memory.heap.drop_words(&[Word::Refer(Some(instance))]);
            Err(halt)
        }
    }
}

// A plain word stands there.
fn plain_at(memory: &Memory, process: &Process, spot: Spot) -> Result<Word, Fault>
    ensures there { IfOk result (λ w.
        places.read (view_world memory.now) (view_process process.now) (view_spot spot) ≡ Found (view_word w)) }
    ensures plain { IfOk result (λ w. is_reference (cell_of w) ≡ false) }
    ensures wrong { (w : AnyWord) → is_reference (cell_of w) ≡ false → IfErr result (λ f.
        rested (places.store (view_world memory.now) (view_process process.now) (view_spot spot) (view_word w)) ≡ Wrong (number_of f)) }
{
    match read(memory, process, spot) {
        Ok(word) => if word.is_reference() {
            Err(Fault::TypeCheck)
        } else {
            Ok(word)
        },
        Err(fault) => Err(fault),
    }
}

// A frame of a type is made, whose address goes there.
fn frame_of_type(
    alloc: Global,
    memory: &mut Memory,
    process: &mut Process,
    spot: Spot,
    desc: &TypeDesc,
) -> Result<(), Halt>
    requires place { process.old.frame.pc + 1 < 2 ^ 64 }
    requires given { HasGiven (view_world memory.old) (view_process process.old) }
    requires held { AreHeld memory.old.heap (names (view_process process.old)) }
    ensures goes { Goes memory.old process.old result
        (frame_stored (view_world memory.old) (view_process process.old) (view_spot spot) (blank_of desc.now))
        memory.new process.new }
    ensures kept { OnErr result (LeftAlone memory.old process.old memory.new process.new) }
    ensures exact { IfErr result (λ h. (IsNoMemory h → ⊥) → (memory.new ≡ memory.old) × (process.new ≡ process.old)) }
{
    let old = match plain_at(memory, process, spot) {
        Ok(old) => old,
        Err(fault) => return Err(Halt::Fault(fault)),
    };
    if memory.frames == u64::MAX {
        return Err(Halt::NoMemory);
    }
    let words = match blank(alloc, desc) {
        Ok(words) => words,
        Err(_) => return Err(Halt::NoMemory),
    };
    match process.made.reserve(1) {
        Ok(()) => finish_frame(memory, process, spot, old, words),
        Err(_) => Err(Halt::NoMemory),
    }
}

/// `frame`: a frame of a type, whose address goes to the destination. It runs in the instance of the frame that makes it, to which it
/// has a reference of its own.
///
/// # Errors
/// The fault that the definition has, and then nothing has changed; or want of memory.
pub fn make_frame(
    alloc: Global,
    code: &Code,
    memory: &mut Memory,
    process: &mut Process,
    inst: Inst,
) -> Result<(), Halt>
    requires place { process.old.frame.pc + 1 < 2 ^ 64 }
    requires given { HasGiven (view_world memory.old) (view_process process.old) }
    requires held { AreHeld memory.old.heap (names (view_process process.old)) }
    ensures goes { (limit : ℕ) → Goes memory.old process.old result
        (control.frame limit code.now.object (view_world memory.old) (view_process process.old) inst) memory.new process.new }
    ensures kept { OnErr result (LeftAlone memory.old process.old memory.new process.new) }
    ensures exact { IfErr result (λ h. (IsNoMemory h → ⊥) → (memory.new ≡ memory.old) × (process.new ≡ process.old)) }
{
    let desc = match source_type(&code.object, inst.src) {
        Ok(desc) => desc,
        Err(fault) => return Err(Halt::Fault(fault)),
    };
    match spot_of(memory, process, inst.dst) {
        Ok(spot) => frame_of_type(alloc, memory, process, spot, desc),
        Err(halt) => Err(halt),
    }
}
