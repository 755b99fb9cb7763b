//! Instructions that make arrays and parts of them (Dis Virtual Machine Specification, the instructions by name): newa, newaz, slicea.

ghost use Rattle.std.specs.Prelude.{◌≡◌, ◌+◌, ◌-◌, ◌<◌, ◌≤◌, ◌^◌, Some, None, IfOk, IfSome, OnErr};
ghost use Rattle.std.specs.Option.{option_map};
ghost use Rattle.dis_file.specs.declared.object.Object.{Object};
ghost use Rattle.dis_isa.specs.declared.inst.Inst.{Inst as CodeInst};
ghost use Rattle.ref_heap.specs.declared.word.Ref.{Ref as CodeRef};
ghost use Rattle.ref_heap.specs.Store.{AreHeld, IsLive};
ghost use Rattle.dis_meaning.specs.Words as words;
ghost use Rattle.dis_memory.specs.Arrays as arrays;
ghost use Rattle.dis_memory.specs.Blocks as blocks;
ghost use Rattle.dis_memory.specs.Kinds.{elements_at};
ghost use Rattle.dis_memory.specs.Naming.{names};
ghost use Rattle.dis_memory.specs.Places as places;
ghost use Rattle.dis_memory.specs.Results.{gives_block_at};
ghost use Rattle.dis_code.specs.Loaded.{IsLoaded};
ghost use Rattle.dis_places.specs.Blocks.{type_by};
ghost use Rattle.dis_kinds.specs.Views.{view_elements};
ghost use Rattle.dis_places.specs.View.{view_process, view_spot, view_world};
ghost use Rattle.dis_places.specs.Words.{GivesFault};
ghost use Rattle.dis_results.specs.Going.{told, Goes};

use crate::giving::{give_array, give_part};
use crate::types::{middle_type, size_of};
use dis_code::Code;
use dis_isa::Inst;
use dis_kinds::{Elements, elements_of};
use dis_places::{Fault, Halt, Memory, Process, Raise, Ref, Spot, Tables, spot_of};
use dis_results::{give_reference, given_int, has_reference, source_int};
use limbo_values::bounds_in;
use std::alloc::Global;

// The length of an array, or what is wrong with it: none has fewer than no elements, or more bytes than there may be.
fn length_in(tables: &Tables, element: u32, long: i32) -> Result<u32, Raise>
    ensures length { told (blocks.blank_array (type_by tables.now element)) result ≡ arrays.new_array (type_by tables.now element) long }
    ensures small { IfOk result (λ n. blocks.bytes_for (type_by tables.now element) n ≤ blocks.most_bytes) }
{
    let Ok(long) = u32::try_from(long) else {
        return Err(Raise::Negative);
    };
    if u64::from(size_of(tables, element)) * u64::from(long) <= 268_435_456 {
        Ok(long)
    } else {
        Err(Raise::Large)
    }
}

/// `newa` and `newaz`: a new array of as many elements as the source says, of the middle's type. There can't be fewer than none, nor more
/// than take 268,435,456 bytes: that is raised.
pub fn newa(
    alloc: Global,
    code: &Code,
    memory: &mut Memory,
    process: &mut Process,
    inst: Inst,
) -> Result<(), Halt>
    requires place { process.old.frame.pc + 1 < 2 ^ 64 }
    requires loaded { IsLoaded memory.old.tables code.now }
    requires held { AreHeld memory.old.heap (names (view_process process.old)) }
    ensures goes { Goes memory.old process.old result
        (arrays.newa code.now.object (view_world memory.old) (view_process process.old) inst) memory.new process.new }
    ensures kept { OnErr result ((memory.new ≡ memory.old) × (process.new ≡ process.old)) }
{
    let long = match source_int(memory, process, inst.src) {
        Ok(long) => long,
        Err(halt) => return Err(halt),
    };
    let element = match middle_type(memory, code, inst.middle) {
        Ok(element) => element,
        Err(fault) => return Err(Halt::Fault(fault)),
    };
    let spot = match spot_of(memory, process, inst.dst) {
        Ok(spot) => spot,
        Err(halt) => return Err(halt),
    };
    let length = length_in(&memory.tables, element, long);
    give_array(alloc, memory, process, spot, element, length)
}

// The elements that a place refers to, of an array that is there.
fn elements_here(memory: &Memory, process: &Process, spot: Spot) -> Result<Option<Elements>, Fault>
    ensures elements { GivesFault (option_map (view_elements memory.now)) result
        (words.◌>>=◌ (places.reference_at (view_world memory.now) (view_process process.now) (view_spot spot))
        (elements_at (view_world memory.now))) }
    ensures live { IfOk result (λ o. IfSome o (λ e. IsLive memory.now.heap e.array.serial)) }
{
    memory.heap.stands();
    match has_reference(memory, process, spot) {
        Ok(array) => elements_of(memory, array),
        Err(fault) => Err(fault),
    }
}

// Part of an array, from one of these elements up to another. No memory has elements whose number has more than 32 bits.
fn give_range(
    memory: &mut Memory,
    process: &mut Process,
    spot: Spot,
    elements: Elements,
    from: usize,
    to: usize,
) -> Result<(), Halt>
    requires place { process.old.frame.pc + 1 < 2 ^ 64 }
    requires rises { from ≤ to }
    requires within { to ≤ elements.long }
    requires live { IsLive memory.old.heap elements.array.serial }
    requires held { AreHeld memory.old.heap (names (view_process process.old)) }
    ensures goes { Goes memory.old process.old result
        (gives_block_at (view_world memory.old) (view_process process.old) (view_spot spot)
        (words.Found (blocks.Part elements.array.serial (elements.start + from) (to - from))))
        memory.new process.new }
    ensures kept { OnErr result ((memory.new ≡ memory.old) × (process.new ≡ process.old)) }
{
    match elements.start.checked_add(from as u32) {
        Some(start) => give_part(
            memory,
            process,
            spot,
            elements.array,
            start,
            (to - from) as u32,
        ),
        None => Err(Halt::NoMemory),
    }
}

// Part of these elements goes to a place, or what is wrong with its bounds is raised.
fn give_within(
    memory: &mut Memory,
    process: &mut Process,
    spot: Spot,
    elements: Elements,
    from: i32,
    to: i32,
) -> Result<(), Halt>
    requires place { process.old.frame.pc + 1 < 2 ^ 64 }
    requires live { IsLive memory.old.heap elements.array.serial }
    requires held { AreHeld memory.old.heap (names (view_process process.old)) }
    ensures goes { (o : Object) (i : CodeInst) → Goes memory.old process.old result
        (arrays.sliced o (view_world memory.old) (view_process process.old) i (view_spot spot)
        (Some (view_elements memory.old elements)) from to) memory.new process.new }
    ensures kept { OnErr result ((memory.new ≡ memory.old) × (process.new ≡ process.old)) }
{
    match bounds_in(elements.long as usize, from, to) {
        Ok((from, to)) => give_range(memory, process, spot, elements, from, to),
        Err(raised) => give_reference(memory, process, spot, Err(Raise::Value(raised))),
    }
}

// Part of nil is nil.
fn give_nil(
    memory: &mut Memory,
    process: &mut Process,
    spot: Spot,
    from: i32,
    to: i32,
) -> Result<(), Halt>
    requires place { process.old.frame.pc + 1 < 2 ^ 64 }
    requires held { AreHeld memory.old.heap (names (view_process process.old)) }
    ensures goes { (o : Object) (i : CodeInst) → Goes memory.old process.old result
        (arrays.sliced o (view_world memory.old) (view_process process.old) i (view_spot spot) None from to) memory.new process.new }
    ensures kept { OnErr result ((memory.new ≡ memory.old) × (process.new ≡ process.old)) }
{
    match bounds_in(0, from, to) {
        Ok(_) => give_reference(memory, process, spot, Ok(None)),
        Err(raised) => give_reference(memory, process, spot, Err(Raise::Value(raised))),
    }
}

/// `slicea`: the destination becomes the part of its array from the source on, before the middle. Of nil it is nil.
pub fn slicea(memory: &mut Memory, process: &mut Process, inst: Inst) -> Result<(), Halt>
    requires place { process.old.frame.pc + 1 < 2 ^ 64 }
    requires held { AreHeld memory.old.heap (names (view_process process.old)) }
    ensures goes { (o : Object) → Goes memory.old process.old result
        (arrays.slicea o (view_world memory.old) (view_process process.old) inst) memory.new process.new }
    ensures kept { OnErr result ((memory.new ≡ memory.old) × (process.new ≡ process.old)) }
{
    let from = match source_int(memory, process, inst.src) {
        Ok(from) => from,
        Err(halt) => return Err(halt),
    };
    let to = match given_int(memory, process, inst.middle) {
        Ok(to) => to,
        Err(fault) => return Err(Halt::Fault(fault)),
    };
    let spot = match spot_of(memory, process, inst.dst) {
        Ok(spot) => spot,
        Err(halt) => return Err(halt),
    };
    let elements = match elements_here(memory, process, spot) {
        Ok(elements) => elements,
        Err(fault) => return Err(Halt::Fault(fault)),
    };
    match elements {
        Some(elements) => give_within(memory, process, spot, elements, from, to),
        None => give_nil(memory, process, spot, from, to),
    }
}
