//! Instructions that move a word (Dis Virtual Machine Specification, the instructions by name): movw, movp, lea.

ghost use Rattle.std.specs.Prelude.{◌≡◌, ◌+◌, ◌<◌, ◌^◌, false, OnErr};
ghost use Rattle.dis_file.specs.declared.object.Object.{Object};
ghost use Rattle.ref_heap.specs.Words.{cell_of, is_reference};
ghost use Rattle.ref_heap.specs.Store.{AreHeld};
ghost use Rattle.dis_meaning.specs.Words as words;
ghost use Rattle.dis_memory.specs.Data as moves;
ghost use Rattle.dis_memory.specs.Naming.{names};
ghost use Rattle.dis_memory.specs.Places as places;
ghost use Rattle.dis_memory.specs.Results.{gives_plain_at};
ghost use Rattle.dis_places.specs.View.{view_process, view_spot, view_world};
ghost use Rattle.dis_places.specs.Words.{view_word, GivesFault};
ghost use Rattle.dis_results.specs.Going.{Goes};

use crate::giving::give_plain;
use crate::operands::{reference_to, source_reference};
use dis_isa::{Inst, Operand};
use dis_places::{
    Fault, Halt, Memory, Process, Spot, Word, address, byte_number, nth, reach, source_plain,
    spot_of,
};

// Gives a plain word to any destination.
#[inline(never)]
fn plain_to(
    memory: &mut Memory,
    process: &mut Process,
    destination: Operand,
    word: Word,
) -> Result<(), Halt>
    requires place { process.old.frame.pc + 1 < 2 ^ 64 }
    requires plain { is_reference (cell_of word) ≡ false }
    ensures goes { Goes memory.old process.old result
        (words.◌>>=◌ (places.spot (view_world memory.old) (view_process process.old) destination) (λ d.
        gives_plain_at (view_world memory.old) (view_process process.old) d (words.Found (view_word word))))
        memory.new process.new }
    ensures kept { OnErr result ((memory.new ≡ memory.old) × (process.new ≡ process.old)) }
{
    match spot_of(memory, process, destination) {
        Ok(spot) => give_plain(memory, process, spot, Ok(word)),
        Err(halt) => Err(halt),
    }
}

/// `movw`: a plain word, whatever stands in it.
pub fn movw(memory: &mut Memory, process: &mut Process, inst: Inst) -> Result<(), Halt>
    requires place { process.old.frame.pc + 1 < 2 ^ 64 }
    ensures goes { (o : Object) → Goes memory.old process.old result
        (moves.movw o (view_world memory.old) (view_process process.old) inst) memory.new process.new }
    ensures kept { OnErr result ((memory.new ≡ memory.old) × (process.new ≡ process.old)) }
{
    let word = match source_plain(memory, process, inst.src) {
        Ok(word) => word,
        Err(halt) => return Err(halt),
    };
    match inst.dst {
        // Most words go into the running frame.
        Operand::Fp(at) => give_plain(memory, process, Spot::Own(i64::from(at)), Ok(word)),
        _ => plain_to(memory, process, inst.dst, word),
    }
}

/// `movp`: a reference.
pub fn movp(memory: &mut Memory, process: &mut Process, inst: Inst) -> Result<(), Halt>
    requires place { process.old.frame.pc + 1 < 2 ^ 64 }
    requires held { AreHeld memory.old.heap (names (view_process process.old)) }
    ensures goes { (o : Object) → Goes memory.old process.old result
        (moves.movp o (view_world memory.old) (view_process process.old) inst) memory.new process.new }
    ensures kept { OnErr result ((memory.new ≡ memory.old) × (process.new ≡ process.old)) }
{
    match source_reference(memory, process, inst.src) {
        Ok(block) => reference_to(memory, process, inst.dst, Ok(block)),
        Err(halt) => Err(halt),
    }
}

// The word in which a byte lies.
fn around(memory: &Memory, process: &Process, spot: Spot) -> Result<Word, Fault>
    ensures { GivesFault view_word result
        (places.around (view_world memory.now) (view_process process.now) (view_spot spot)) }
{
    let region = reach(memory, process, spot)?;
    let n = byte_number(spot.byte())?;
    nth(memory, process, region, n / 4)
}

/// `lea`: the address of a byte.
pub fn lea(memory: &mut Memory, process: &mut Process, inst: Inst) -> Result<(), Halt>
    requires place { process.old.frame.pc + 1 < 2 ^ 64 }
    ensures goes { (o : Object) → Goes memory.old process.old result
        (moves.lea o (view_world memory.old) (view_process process.old) inst) memory.new process.new }
    ensures kept { OnErr result ((memory.new ≡ memory.old) × (process.new ≡ process.old)) }
{
    let source = match spot_of(memory, process, inst.src) {
        Ok(spot) => spot,
        Err(halt) => return Err(halt),
    };
    match around(memory, process, source) {
        Ok(_) => {}
        Err(fault) => return Err(Halt::Fault(fault)),
    }
    let spot = match spot_of(memory, process, inst.dst) {
        Ok(spot) => spot,
        Err(halt) => return Err(halt),
    };
    match address(process, source) {
        Ok(word) => give_plain(memory, process, spot, Ok(word)),
        Err(_) => Err(Halt::NoMemory),
    }
}
