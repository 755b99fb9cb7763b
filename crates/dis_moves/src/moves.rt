//! Instructions that move so many bytes of plain words (Dis Virtual Machine Specification, the instructions by name): movm, headm,
//! consm.

ghost use Rattle.std.specs.Prelude.{◌≡◌, ◌+◌, ◌/◌, ◌<◌, ◌^◌, ◌&&◌, ℕ, true, None, IfErr, IfOk, OnErr};
ghost use Rattle.std.specs.Option.{option_map};
ghost use Rattle.limbo_values.specs.declared.number.Kind.TheVariants as kind;
ghost use Rattle.dis_file.specs.declared.object.Object.{Object};
ghost use Rattle.dis_meaning.specs.Words as meaning;
ghost use Rattle.dis_memory.specs.Copies.{is_whole, moved, put};
ghost use Rattle.dis_memory.specs.Data as data_moves;
ghost use Rattle.dis_memory.specs.Lists as lists;
ghost use Rattle.dis_memory.specs.Places as places;
ghost use Rattle.dis_memory.specs.Process.{next};
ghost use Rattle.dis_memory.specs.Naming.{names};
ghost use Rattle.ref_heap.specs.Store.{AreHeld};
ghost use Rattle.dis_blocks.specs.Making.{Untouched};
ghost use Rattle.dis_copies.specs.Spans.{none_refers, put_at};
ghost use Rattle.dis_kinds.specs.Views.{view_linked};
ghost use Rattle.dis_moves.specs.Bytes.{bytes_moved};
ghost use Rattle.dis_moves.specs.Moves.{consed_from, head_to, moved_from, moved_to};
ghost use Rattle.dis_places.specs.Regions.{words_here};
ghost use Rattle.dis_places.specs.View.{view_process, view_spot, view_world};
ghost use Rattle.dis_places.specs.Words.{view_words, GivesFault, Halts};
ghost use Rattle.dis_results.specs.Going.{Goes};

use crate::blanks::copied_words;
use crate::bytes::bytes_over;
use dis_copies::store_plain_words;
use dis_isa::{Inst, Middle};
use dis_kinds::{bytes_from, plain_words};
use dis_lists::cons;
use dis_makings::go_on;
use dis_places::{
    Fault, Halt, Memory, Process, Raise, Ref, Region, Spot, Word, byte_number, reach, spot_of,
};
use dis_results::{given_int, source_cell};
use std::alloc::Global;

// How many bytes a middle says.
fn count_in(memory: &Memory, process: &Process, middle: Middle) -> Result<u32, Fault>
    ensures count { GivesFault (λ n. n) result (meaning.◌>>=◌
        (places.given_of kind.Int (view_world memory.now) (view_process process.now) middle) meaning.at_least_zero) }
    ensures few { IfOk result (λ n. n < 2 ^ 31) }
{
    let n = given_int(memory, process, middle)?;
    if n < 0 {
        return Err(Fault::TypeCheck);
    }
    Ok(n as u32)
}

/// Whether whole words go over whole words.
pub(crate) fn is_whole(from: usize, to: usize, count: u32) -> bool
    ensures { result ≡ (is_whole from && is_whole to && is_whole count) }
{
    from % 4 == 0 && to % 4 == 0 && count % 4 == 0
}

// The words in which bytes lie that go over those of a region, from another.
fn byte_words(
    alloc: Global,
    memory: &Memory,
    process: &Process,
    source: Region,
    from: usize,
    target: Region,
    to: usize,
    count: u32,
) -> Result<Vec<Word>, Halt>
    requires small { from < 2 ^ 63 }
    requires near { to < 2 ^ 63 }
    requires few { count < 2 ^ 31 }
    ensures put { IfOk result (λ row. bytes_moved (words_here memory.now.heap process.now source) from
        (words_here memory.now.heap process.now target) to count
        ≡ put (words_here memory.now.heap process.now target) (to / 4) (view_words row.items)) }
    ensures plain { IfOk result (λ row. none_refers (view_words row.items) ≡ true) }
    ensures fault { IfErr result (λ h. Halts h (bytes_moved (words_here memory.now.heap process.now source) from
        (words_here memory.now.heap process.now target) to count)) }
{
    match bytes_from(alloc, memory, process, source, from, count) {
        Ok(bytes) => bytes_over(alloc, memory, process, target, to, &bytes),
        Err(halt) => Err(halt),
    }
}

// The words that go over those of a region, from another.
fn moved_words(
    alloc: Global,
    memory: &Memory,
    process: &Process,
    source: Region,
    from: usize,
    target: Region,
    to: usize,
    count: u32,
) -> Result<Vec<Word>, Halt>
    requires small { from < 2 ^ 63 }
    requires near { to < 2 ^ 63 }
    requires few { count < 2 ^ 31 }
    ensures put { IfOk result (λ row. moved (words_here memory.now.heap process.now source) from
        (words_here memory.now.heap process.now target) to count
        ≡ put (words_here memory.now.heap process.now target) (to / 4) (view_words row.items)) }
    ensures plain { IfOk result (λ row. none_refers (view_words row.items) ≡ true) }
    ensures fault { IfErr result (λ h. Halts h (moved (words_here memory.now.heap process.now source) from
        (words_here memory.now.heap process.now target) to count)) }
{
    if is_whole(from, to, count) {
        plain_words(alloc, memory, process, source, from / 4, count / 4)
    } else {
        byte_words(alloc, memory, process, source, from, target, to, count)
    }
}

// Stores plain words over those of a place, from one on, and the process goes on.
fn finish_plain(
    memory: &mut Memory,
    process: &mut Process,
    spot: Spot,
    from: usize,
    words: &mut [Word],
) -> Result<(), Halt>
    requires place { process.old.frame.pc + 1 < 2 ^ 64 }
    requires small { from < 2 ^ 61 }
    requires plain { none_refers (view_words words.old) ≡ true }
    ensures goes { Goes memory.old process.old result
        (meaning.◌>>=◌ (put_at (view_world memory.old) (view_process process.old) (view_spot spot) from (view_words words.old))
        (λ m. meaning.Found (next m))) memory.new process.new }
    ensures kept { OnErr result ((memory.new ≡ memory.old) × (process.new ≡ process.old)) }
{
    let outcome = store_plain_words(memory, process, spot, from, words);
    go_on(process, outcome)
}

/// So many bytes of a region's plain words go over what stands in a place, and the process goes on.
///
/// # Errors
/// The fault that the definition has, or want of memory; then nothing has changed.
pub fn move_to(
    alloc: Global,
    memory: &mut Memory,
    process: &mut Process,
    spot: Spot,
    source: Region,
    from: usize,
    count: u32,
) -> Result<(), Halt>
    requires place { process.old.frame.pc + 1 < 2 ^ 64 }
    requires small { from < 2 ^ 63 }
    requires few { count < 2 ^ 31 }
    ensures goes { Goes memory.old process.old result
        (moved_to (view_world memory.old) (view_process process.old) (words_here memory.old.heap process.old source) from count
        (view_spot spot)) memory.new process.new }
    ensures kept { OnErr result ((memory.new ≡ memory.old) × (process.new ≡ process.old)) }
{
    let target = match reach(memory, process, spot) {
        Ok(target) => target,
        Err(fault) => return Err(Halt::Fault(fault)),
    };
    let to = match byte_number(spot.byte()) {
        Ok(to) => to,
        Err(fault) => return Err(Halt::Fault(fault)),
    };
    match moved_words(alloc, memory, process, source, from, target, to, count) {
        Ok(words) => {
            let mut words = words;
            finish_plain(memory, process, spot, to / 4, &mut words)
        }
        Err(halt) => Err(halt),
    }
}

// So many bytes of a place go where the destination says.
fn move_from(
    alloc: Global,
    memory: &mut Memory,
    process: &mut Process,
    inst: Inst,
    spot: Spot,
) -> Result<(), Halt>
    requires place { process.old.frame.pc + 1 < 2 ^ 64 }
    ensures goes { Goes memory.old process.old result
        (moved_from (view_world memory.old) (view_process process.old) inst (view_spot spot)) memory.new process.new }
    ensures kept { OnErr result ((memory.new ≡ memory.old) × (process.new ≡ process.old)) }
{
    let source = match reach(memory, process, spot) {
        Ok(source) => source,
        Err(fault) => return Err(Halt::Fault(fault)),
    };
    let from = match byte_number(spot.byte()) {
        Ok(from) => from,
        Err(fault) => return Err(Halt::Fault(fault)),
    };
    let count = match count_in(memory, process, inst.middle) {
        Ok(count) => count,
        Err(fault) => return Err(Halt::Fault(fault)),
    };
    match spot_of(memory, process, inst.dst) {
        Ok(spot) => move_to(alloc, memory, process, spot, source, from, count),
        Err(halt) => Err(halt),
    }
}

/// `movm`: so many bytes of the source's plain words, as the middle says, go over what stands in the destination.
pub fn movm(
    alloc: Global,
    memory: &mut Memory,
    process: &mut Process,
    inst: Inst,
) -> Result<(), Halt>
    requires place { process.old.frame.pc + 1 < 2 ^ 64 }
    ensures goes { (o : Object) → Goes memory.old process.old result
        (data_moves.movm o (view_world memory.old) (view_process process.old) inst) memory.new process.new }
    ensures kept { OnErr result ((memory.new ≡ memory.old) × (process.new ≡ process.old)) }
{
    match spot_of(memory, process, inst.src) {
        Ok(spot) => move_from(alloc, memory, process, inst, spot),
        Err(halt) => Err(halt),
    }
}

// A place is there, of which the byte has a number; but nil has no element.
fn refuse_nil(memory: &Memory, process: &Process, spot: Spot) -> Halt
    ensures { (count : ℕ) → Halts result
        (head_to (view_world memory.now) (view_process process.now) None count (view_spot spot)) }
{
    match reach(memory, process, spot) {
        Ok(_) => match byte_number(spot.byte()) {
            Ok(_) => Halt::Raises(Raise::Nil),
            Err(fault) => Halt::Fault(fault),
        },
        Err(fault) => Halt::Fault(fault),
    }
}

// So many bytes of the element of a cell go over what stands in a place. Nil has none.
fn head_to(
    alloc: Global,
    memory: &mut Memory,
    process: &mut Process,
    spot: Spot,
    first: Option<Ref>,
    count: u32,
) -> Result<(), Halt>
    requires place { process.old.frame.pc + 1 < 2 ^ 64 }
    requires few { count < 2 ^ 31 }
    ensures goes { Goes memory.old process.old result
        (head_to (view_world memory.old) (view_process process.old) (option_map (view_linked memory.old) first) count (view_spot spot))
        memory.new process.new }
    ensures kept { OnErr result ((memory.new ≡ memory.old) × (process.new ≡ process.old)) }
{
    // The element stands behind the reference to the rest.
    match first {
        Some(cell) => move_to(alloc, memory, process, spot, Region::Block(cell), 4, count),
        None => Err(refuse_nil(memory, process, spot)),
    }
}

/// `headm`: so many bytes of the plain words that a list begins with, as the middle says, go over what stands in the destination. Nil
/// begins with none.
pub fn headm(
    alloc: Global,
    memory: &mut Memory,
    process: &mut Process,
    inst: Inst,
) -> Result<(), Halt>
    requires place { process.old.frame.pc + 1 < 2 ^ 64 }
    ensures goes { (o : Object) → Goes memory.old process.old result
        (lists.headm o (view_world memory.old) (view_process process.old) inst) memory.new process.new }
    ensures kept { OnErr result ((memory.new ≡ memory.old) × (process.new ≡ process.old)) }
{
    let first = match source_cell(memory, process, inst.src) {
        Ok(first) => first,
        Err(halt) => return Err(halt),
    };
    let count = match count_in(memory, process, inst.middle) {
        Ok(count) => count,
        Err(fault) => return Err(Halt::Fault(fault)),
    };
    match spot_of(memory, process, inst.dst) {
        Ok(spot) => head_to(alloc, memory, process, spot, first, count),
        Err(halt) => Err(halt),
    }
}

// A cell with so many bytes of a place in front of the list that the destination has.
fn cons_from(
    alloc: Global,
    memory: &mut Memory,
    process: &mut Process,
    inst: Inst,
    spot: Spot,
) -> Result<(), Halt>
    requires place { process.old.frame.pc + 1 < 2 ^ 64 }
    requires held { AreHeld memory.old.heap (names (view_process process.old)) }
    ensures goes { (o : Object) → Goes memory.old process.old result
        (consed_from o (view_world memory.old) (view_process process.old) inst (view_spot spot)) memory.new process.new }
    ensures kept { OnErr result (Untouched memory.old process.old memory.new process.new) }
{
    memory.heap.stands();
    let source = match reach(memory, process, spot) {
        Ok(source) => source,
        Err(fault) => return Err(Halt::Fault(fault)),
    };
    let from = match byte_number(spot.byte()) {
        Ok(from) => from,
        Err(fault) => return Err(Halt::Fault(fault)),
    };
    let count = match count_in(memory, process, inst.middle) {
        Ok(count) => count,
        Err(fault) => return Err(Halt::Fault(fault)),
    };
    match copied_words(alloc, memory, process, source, from, count) {
        Ok(words) => cons(alloc, memory, process, inst, &words),
        Err(halt) => Err(halt),
    }
}

/// `consm`: a cell with so many bytes of the source's plain words, as the middle says, in front of the list that the destination has.
pub fn consm(
    alloc: Global,
    memory: &mut Memory,
    process: &mut Process,
    inst: Inst,
) -> Result<(), Halt>
    requires place { process.old.frame.pc + 1 < 2 ^ 64 }
    requires held { AreHeld memory.old.heap (names (view_process process.old)) }
    ensures goes { (o : Object) → Goes memory.old process.old result
        (lists.consm o (view_world memory.old) (view_process process.old) inst) memory.new process.new }
    ensures kept { OnErr result (Untouched memory.old process.old memory.new process.new) }
{
    memory.heap.stands();
    match spot_of(memory, process, inst.src) {
        Ok(spot) => cons_from(alloc, memory, process, inst, spot),
        Err(halt) => Err(halt),
    }
}
