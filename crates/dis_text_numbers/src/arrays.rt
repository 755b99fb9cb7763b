//! Strings as arrays of bytes and back (Dis Virtual Machine Specification, the instructions by name): cvtca, cvtac.

ghost use Rattle.std.specs.Prelude.{◌≡◌, ◌+◌, ◌<◌, ◌^◌, OnErr};
ghost use Rattle.std.specs.Option.{option_map};
ghost use Rattle.dis_file.specs.declared.object.Object.{Object};
ghost use Rattle.ref_heap.specs.Store.{AreHeld};
ghost use Rattle.dis_meaning.specs.Words as words;
ghost use Rattle.dis_memory.specs.Blocks as blocks;
ghost use Rattle.dis_memory.specs.Kinds.{elements_at};
ghost use Rattle.dis_memory.specs.Naming.{names};
ghost use Rattle.dis_memory.specs.Places as places;
ghost use Rattle.dis_memory.specs.Raising.{unless_raised};
ghost use Rattle.dis_memory.specs.Results.{gives_block_at};
ghost use Rattle.dis_memory.specs.Strings as strings;
ghost use Rattle.dis_places.specs.View.{view_process, view_spot, view_world};
ghost use Rattle.dis_places.specs.Words.{Gives};
ghost use Rattle.dis_kinds.specs.Views.{view_elements};
ghost use Rattle.dis_code.specs.Loaded.{HasFirst};
ghost use Rattle.dis_results.specs.Going.{Goes};
ghost use Rattle.dis_strings.specs.Telling.{told_text};
ghost use Rattle.dis_text_numbers.specs.Packed.{words_of};

use crate::bytes::packed;
use crate::codes::{read_bytes, spelled};
use dis_blocks::store_new;
use dis_isa::{Inst, Operand};
use dis_kinds::{Elements, bytes_from, elements_of};
use dis_places::{Fault, Halt, Memory, Process, Raise, Region, Spot, spot_of};
use dis_results::{advance, has_reference, size_of, source_reference};
use dis_strings::{source_text, text_to};
use limbo_values::Raised;
use ref_heap::{Kind, Words};
use std::alloc::Global;

// The number of the type of a byte in the tables.
const BYTE: u32 = 0;

// How many bytes an array takes at most.
const MOST_BYTES: usize = 268_435_456;

// How many characters a string has at most.
const LONGEST: usize = 16_777_216;

// Makes an array of these bytes and stores a reference to it where one stands, and the process goes on.
fn finish_bytes(
    memory: &mut Memory,
    process: &mut Process,
    spot: Spot,
    long: u32,
    packed: Vec<u32>,
) -> Result<(), Halt>
    requires place { process.old.frame.pc + 1 < 2 ^ 64 }
    requires first { HasFirst memory.old.tables }
    requires held { AreHeld memory.old.heap (names (view_process process.old)) }
    ensures goes { Goes memory.old process.old result
        (gives_block_at (view_world memory.old) (view_process process.old) (view_spot spot)
        (words.Found (blocks.Array strings.byte_type long (words_of packed.items)))) memory.new process.new }
    ensures kept { OnErr result ((memory.new ≡ memory.old) × (process.new ≡ process.old)) }
{
    let kind = Kind::Array {
        element: BYTE,
        length: long,
    };
    match store_new(memory, process, spot, kind, Words::compact(packed)) {
        Ok(()) => {
            advance(process);
            Ok(())
        }
        Err(halt) => Err(halt),
    }
}

// Makes an array of these bytes, or raises that they are too many: the destination has a reference.
fn give_bytes(
    alloc: Global,
    memory: &mut Memory,
    process: &mut Process,
    spot: Spot,
    bytes: Vec<u8>,
) -> Result<(), Halt>
    requires place { process.old.frame.pc + 1 < 2 ^ 64 }
    requires first { HasFirst memory.old.tables }
    requires held { AreHeld memory.old.heap (names (view_process process.old)) }
    ensures goes { Goes memory.old process.old result
        (gives_block_at (view_world memory.old) (view_process process.old) (view_spot spot) (strings.array_of bytes.items))
        memory.new process.new }
    ensures kept { OnErr result ((memory.new ≡ memory.old) × (process.new ≡ process.old)) }
{
    match has_reference(memory, process, spot) {
        Ok(_) => {}
        Err(fault) => return Err(Halt::Fault(fault)),
    }
    if bytes.len() > MOST_BYTES {
        return Err(Halt::Raises(Raise::Large));
    }
    match packed(alloc, &bytes) {
        Ok(packed) => finish_bytes(memory, process, spot, bytes.len() as u32, packed),
        Err(_) => Err(Halt::NoMemory),
    }
}

/// `cvtca`: a string as an array of the bytes that spell it in UTF-8.
pub fn cvtca(
    alloc: Global,
    memory: &mut Memory,
    process: &mut Process,
    inst: Inst,
) -> Result<(), Halt>
    requires place { process.old.frame.pc + 1 < 2 ^ 64 }
    requires first { HasFirst memory.old.tables }
    requires held { AreHeld memory.old.heap (names (view_process process.old)) }
    ensures goes { (o : Object) → Goes memory.old process.old result
        (strings.cvtca o (view_world memory.old) (view_process process.old) inst) memory.new process.new }
    ensures kept { OnErr result ((memory.new ≡ memory.old) × (process.new ≡ process.old)) }
{
    let text = match source_text(memory, process, inst.src) {
        Ok(text) => text,
        Err(halt) => return Err(halt),
    };
    let bytes = match spelled(alloc, text) {
        Ok(bytes) => bytes,
        Err(_) => return Err(Halt::NoMemory),
    };
    match spot_of(memory, process, inst.dst) {
        Ok(spot) => give_bytes(alloc, memory, process, spot, bytes),
        Err(halt) => Err(halt),
    }
}

// The elements of an array of bytes. Nil has none.
fn bytes_in(
    alloc: Global,
    memory: &Memory,
    process: &Process,
    elements: Option<Elements>,
) -> Result<Vec<u8>, Halt>
    ensures { Gives (λ bytes. bytes.items) result (strings.bytes_in (option_map (view_elements memory.now) elements)) }
{
    let Some(elements) = elements else {
        return Ok(Vec::new(alloc));
    };
    if size_of(memory, elements) != 1 {
        return Err(Halt::Fault(Fault::TypeCheck));
    }
    let region = Region::Block(elements.array);
    bytes_from(
        alloc,
        memory,
        process,
        region,
        elements.start as usize,
        elements.long,
    )
}

// The bytes of the array that a source refers to.
fn source_bytes(
    alloc: Global,
    memory: &Memory,
    process: &Process,
    source: Operand,
) -> Result<Vec<u8>, Halt>
    ensures { Gives (λ bytes. bytes.items) result (words.◌>>=◌ (words.◌>>=◌
        (places.source_reference (view_world memory.now) (view_process process.now) source)
        (elements_at (view_world memory.now))) strings.bytes_in) }
{
    let block = match source_reference(memory, process, source) {
        Ok(block) => block,
        Err(halt) => return Err(halt),
    };
    match elements_of(memory, block) {
        Ok(elements) => bytes_in(alloc, memory, process, elements),
        Err(fault) => Err(Halt::Fault(fault)),
    }
}

// A string, or that it is too long.
fn not_longer(text: Vec<u32>) -> Result<Vec<u32>, Raise>
    ensures { told_text result ≡ unless_raised (strings.not_longer text.items) }
{
    if text.len() > LONGEST {
        Err(Raise::Value(Raised::StringTooLong))
    } else {
        Ok(text)
    }
}

/// `cvtac`: an array of bytes as the string that they spell in UTF-8, with U+FFFD for each byte that begins no character, or that this
/// string would be too long.
pub fn cvtac(
    alloc: Global,
    memory: &mut Memory,
    process: &mut Process,
    inst: Inst,
) -> Result<(), Halt>
    requires place { process.old.frame.pc + 1 < 2 ^ 64 }
    requires held { AreHeld memory.old.heap (names (view_process process.old)) }
    ensures goes { (o : Object) → Goes memory.old process.old result
        (strings.cvtac o (view_world memory.old) (view_process process.old) inst) memory.new process.new }
    ensures kept { OnErr result ((memory.new ≡ memory.old) × (process.new ≡ process.old)) }
{
    let bytes = match source_bytes(alloc, memory, process, inst.src) {
        Ok(bytes) => bytes,
        Err(halt) => return Err(halt),
    };
    match read_bytes(alloc, &bytes) {
        Ok(text) => text_to(memory, process, inst.dst, not_longer(text)),
        Err(_) => Err(Halt::NoMemory),
    }
}
