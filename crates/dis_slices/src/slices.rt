//! Elements that go over those of another array (Dis Virtual Machine Specification, the instructions by name): slicela.

ghost use Rattle.std.specs.Prelude.{◌≡◌, ◌+◌, ◌*◌, ◌/◌, ◌<◌, ◌^◌, IfOk, IfSome, Some, OnErr, Ok as OkOf};
ghost use Rattle.std.specs.Option.{option_map};
ghost use Rattle.dis_file.specs.declared.object.Object.{Object};
ghost use Rattle.ref_heap.specs.Store.{AreHeld};
ghost use Rattle.dis_memory.specs.Arrays as arrays;
ghost use Rattle.dis_memory.specs.Copies.{taken};
ghost use Rattle.dis_memory.specs.Kinds.{elements_at, length_of};
ghost use Rattle.dis_memory.specs.Naming.{names};
ghost use Rattle.dis_memory.specs.Places as places;
ghost use Rattle.dis_memory.specs.Process.{next};
ghost use Rattle.dis_meaning.specs.Words as meaning;
ghost use Rattle.dis_blocks.specs.Making.{Untouched};
ghost use Rattle.dis_copies.specs.Spans.{AreLive};
ghost use Rattle.dis_kinds.specs.Views.{view_elements};
ghost use Rattle.dis_slices.specs.Overs.{bytes_over, sliced, words_over, IsArray};
ghost use Rattle.dis_places.specs.declared.memory.Memory.{Memory as MemoryOf};
ghost use Rattle.dis_places.specs.declared.spots.Region.TheVariants as region;
ghost use Rattle.dis_places.specs.Regions.{words_here};
ghost use Rattle.dis_places.specs.View.{view_process, view_world};
ghost use Rattle.dis_places.specs.Words.{view_words, Gives};
ghost use Rattle.dis_results.specs.Going.{Goes};

use crate::bounds::{bound_in, few, product};
use crate::kinds::{of_one_type, refers};
use dis_isa::{Inst, Operand};
use dis_kinds::{Elements, taken_words};
use dis_moves::{finish_words, move_to};
use dis_places::{Halt, Memory, Place, Process, Raise, Ref, Region, Spot, Word};
use dis_results::{advance, given_int, size_of, source_elements};
use std::alloc::Global;

// So many words of an array, from one on, whose references lead to blocks that are there.
fn words_from(
    alloc: Global,
    memory: &Memory,
    process: &Process,
    array: Ref,
    from: usize,
    count: u32,
) -> Result<Vec<Word>, Halt>
    requires { from < 2 ^ 61 }
    ensures words { Gives (λ found. view_words found.items) result
        (taken (words_here memory.now.heap process.now (region.Block array)) from count) }
    ensures live { IfOk result (λ found. AreLive memory.now.heap found.items) }
{
    memory.heap.stands();
    taken_words(alloc, memory, process, Region::Block(array), from, count)
}

// Elements with their references go over those of another array.
fn copy_words(
    alloc: Global,
    memory: &mut Memory,
    process: &mut Process,
    source: Elements,
    target: Elements,
    at: u32,
) -> Result<(), Halt>
    requires place { process.old.frame.pc + 1 < 2 ^ 64 }
    requires array { IsArray (view_world memory.old) (view_elements memory.old target) }
    requires held { AreHeld memory.old.heap (names (view_process process.old)) }
    ensures goes { Goes memory.old process.old result
        (words_over (view_world memory.old) (view_process process.old) (view_elements memory.old source)
        (view_elements memory.old target) at) memory.new process.new }
    ensures kept { OnErr result (Untouched memory.old process.old memory.new process.new) }
{
    memory.heap.stands();
    let from = match product(u64::from(source.start), size_of(memory, source) / 4) {
        Ok(from) => from,
        Err(_) => return Err(Halt::NoMemory),
    };
    let count = match few(source.long, size_of(memory, source) / 4) {
        Ok(count) => count,
        Err(_) => return Err(Halt::NoMemory),
    };
    let first = u64::from(target.start) + u64::from(at);
    let to = match product(first, size_of(memory, target) / 4) {
        Ok(to) => to,
        Err(_) => return Err(Halt::NoMemory),
    };
    match words_from(alloc, memory, process, source.array, from, count) {
        Ok(words) => {
            let mut words = words;
            let spot = Spot::Far(Place::Block(target.array), 0);
            finish_words(memory, process, spot, to, &mut words)
        }
        Err(halt) => Err(halt),
    }
}

// Elements that refer to nothing go over those of another array, byte by byte or word by word.
fn copy_bytes(
    alloc: Global,
    memory: &mut Memory,
    process: &mut Process,
    source: Elements,
    target: Elements,
    at: u32,
) -> Result<(), Halt>
    requires place { process.old.frame.pc + 1 < 2 ^ 64 }
    requires array { IsArray (view_world memory.old) (view_elements memory.old target) }
    ensures goes { Goes memory.old process.old result
        (bytes_over (view_world memory.old) (view_process process.old) (view_elements memory.old source)
        (view_elements memory.old target) at) memory.new process.new }
    ensures kept { OnErr result ((memory.new ≡ memory.old) × (process.new ≡ process.old)) }
{
    let from = match product(u64::from(source.start), size_of(memory, source)) {
        Ok(from) => from,
        Err(_) => return Err(Halt::NoMemory),
    };
    let count = match few(source.long, size_of(memory, source)) {
        Ok(count) => count,
        Err(_) => return Err(Halt::NoMemory),
    };
    let first = u64::from(target.start) + u64::from(at);
    let to = match product(first, size_of(memory, target)) {
        Ok(to) => to as i64,
        Err(_) => return Err(Halt::NoMemory),
    };
    let spot = Spot::Far(Place::Block(target.array), to);
    move_to(
        alloc,
        memory,
        process,
        spot,
        Region::Block(source.array),
        from,
        count,
    )
}

// Elements go over those of another array.
fn copy_over(
    alloc: Global,
    memory: &mut Memory,
    process: &mut Process,
    source: Elements,
    target: Elements,
    at: u32,
) -> Result<(), Halt>
    requires place { process.old.frame.pc + 1 < 2 ^ 64 }
    requires array { IsArray (view_world memory.old) (view_elements memory.old target) }
    requires held { AreHeld memory.old.heap (names (view_process process.old)) }
    ensures goes { Goes memory.old process.old result
        (arrays.copied (view_world memory.old) (view_process process.old)
        (Some (view_elements memory.old source)) (Some (view_elements memory.old target)) at)
        memory.new process.new }
    ensures kept { OnErr result (Untouched memory.old process.old memory.new process.new) }
{
    memory.heap.stands();
    if refers(&memory.tables, source.element) {
        copy_words(alloc, memory, process, source, target, at)
    } else {
        copy_bytes(alloc, memory, process, source, target, at)
    }
}

// The process goes on, and nothing is copied.
fn go_by(memory: &Memory, process: &mut Process)
    requires { process.old.frame.pc + 1 < 2 ^ 64 }
    ensures { Goes memory.now process.old (OkOf tt)
        (meaning.Found (next (places.memory (view_world memory.now) (view_process process.old)))) memory.now process.new }
{
    memory.heap.stands();
    advance(process);
}

// What is copied from nil, and into it, is nothing.
fn give_copied(
    alloc: Global,
    memory: &mut Memory,
    process: &mut Process,
    source: Option<Elements>,
    target: Option<Elements>,
    at: u32,
) -> Result<(), Halt>
    requires place { process.old.frame.pc + 1 < 2 ^ 64 }
    requires array { IfSome target (λ t. IsArray (view_world memory.old) (view_elements memory.old t)) }
    requires held { AreHeld memory.old.heap (names (view_process process.old)) }
    ensures goes { Goes memory.old process.old result
        (arrays.copied (view_world memory.old) (view_process process.old)
        (option_map (view_elements memory.old) source) (option_map (view_elements memory.old) target) at)
        memory.new process.new }
    ensures kept { OnErr result (Untouched memory.old process.old memory.new process.new) }
{
    let Some(source) = source else {
        go_by(memory, process);
        return Ok(());
    };
    let Some(target) = target else {
        go_by(memory, process);
        return Ok(());
    };
    copy_over(alloc, memory, process, source, target, at)
}

// How many there are.
fn long_of(elements: Option<Elements>) -> u32
    ensures { (m : MemoryOf) → result ≡ length_of (option_map (view_elements m) elements) }
{
    match elements {
        Some(elements) => elements.long,
        None => 0,
    }
}

// Elements go over others from one on, or what is wrong with that is raised.
fn slice_at(
    alloc: Global,
    memory: &mut Memory,
    process: &mut Process,
    source: Option<Elements>,
    target: Option<Elements>,
    at: i32,
) -> Result<(), Halt>
    requires place { process.old.frame.pc + 1 < 2 ^ 64 }
    requires array { IfSome target (λ t. IsArray (view_world memory.old) (view_elements memory.old t)) }
    requires held { AreHeld memory.old.heap (names (view_process process.old)) }
    ensures goes { Goes memory.old process.old result
        (sliced (view_world memory.old) (view_process process.old) (option_map (view_elements memory.old) source)
        (option_map (view_elements memory.old) target) at) memory.new process.new }
    ensures kept { OnErr result (Untouched memory.old process.old memory.new process.new) }
{
    memory.heap.stands();
    match bound_in(long_of(target), at, long_of(source)) {
        Ok(at) => give_copied(alloc, memory, process, source, target, at),
        Err(raised) => Err(Halt::Raises(Raise::Value(raised))),
    }
}

// The elements that a destination refers to, of an array that is there.
fn target_elements(
    memory: &Memory,
    process: &Process,
    destination: Operand,
) -> Result<Option<Elements>, Halt>
    ensures elements { Gives (option_map (view_elements memory.now)) result (meaning.◌>>=◌
        (places.source_reference (view_world memory.now) (view_process process.now) destination) (elements_at (view_world memory.now))) }
    ensures array { IfOk result (λ o. IfSome o (λ t. IsArray (view_world memory.now) (view_elements memory.now t))) }
{
    memory.heap.stands();
    source_elements(memory, process, destination)
}

/// `slicela`: the source's elements go over those of the destination, from the middle on. Both are of one type, and what is copied stays
/// within the destination, or that is raised. What is copied from nil, and into it, is nothing.
pub fn slicela(
    alloc: Global,
    memory: &mut Memory,
    process: &mut Process,
    inst: Inst,
) -> Result<(), Halt>
    requires place { process.old.frame.pc + 1 < 2 ^ 64 }
    requires held { AreHeld memory.old.heap (names (view_process process.old)) }
    ensures goes { (o : Object) → Goes memory.old process.old result
        (arrays.slicela o (view_world memory.old) (view_process process.old) inst) memory.new process.new }
    ensures kept { OnErr result (Untouched memory.old process.old memory.new process.new) }
{
    memory.heap.stands();
    let source = match source_elements(memory, process, inst.src) {
        Ok(source) => source,
        Err(halt) => return Err(halt),
    };
    let at = match given_int(memory, process, inst.middle) {
        Ok(at) => at,
        Err(fault) => return Err(Halt::Fault(fault)),
    };
    let target = match target_elements(memory, process, inst.dst) {
        Ok(target) => target,
        Err(halt) => return Err(halt),
    };
    match of_one_type(memory, source, target) {
        Ok(()) => slice_at(alloc, memory, process, source, target, at),
        Err(fault) => Err(Halt::Fault(fault)),
    }
}
