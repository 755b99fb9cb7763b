//! A cell in front of the list that a destination has.

ghost use Rattle.std.specs.Prelude.{◌≡◌, ◌+◌, ◌<◌, ◌^◌, IfOk, IfSome, OnErr};
ghost use Rattle.std.specs.Option.{option_map};
ghost use Rattle.dis_file.specs.declared.object.Object.{Object};
ghost use Rattle.dis_isa.specs.declared.inst.Inst.{Inst as CodeInst};
ghost use Rattle.ref_heap.specs.declared.word.Ref.{Ref as CodeRef};
ghost use Rattle.ref_heap.specs.Store.{AreHeld, IsLive};
ghost use Rattle.dis_meaning.specs.Words as words;
ghost use Rattle.dis_memory.specs.Lists as lists;
ghost use Rattle.dis_memory.specs.Naming.{names};
ghost use Rattle.dis_memory.specs.Places as places;
ghost use Rattle.dis_blocks.specs.Making.{Untouched};
ghost use Rattle.dis_copies.specs.Spans.{AreLive};
ghost use Rattle.dis_places.specs.View.{view_process, view_spot, view_world};
ghost use Rattle.dis_places.specs.Words.{view_words, GivesFault};
ghost use Rattle.dis_results.specs.Going.{Goes};

use crate::cells::store_cell;
use dis_isa::Inst;
use dis_makings::go_on;
use dis_places::{Fault, Halt, Memory, Process, Ref, Spot, Word, read, reference, spot_of};
use std::alloc::Global;

// The list that stands in a place, whose first cell is there; or nothing.
fn list_at(memory: &Memory, process: &Process, spot: Spot) -> Result<Option<Ref>, Fault>
    ensures block { GivesFault (option_map (λ (r : CodeRef). r.serial)) result
        (places.reference_at (view_world memory.now) (view_process process.now) (view_spot spot)) }
    ensures live { AreHeld memory.now.heap (names (view_process process.now))
        → IfOk result (λ o. IfSome o (λ r. IsLive memory.now.heap r.serial)) }
{
    memory.heap.stands();
    match read(memory, process, spot) {
        Ok(word) => reference(word),
        Err(fault) => Err(fault),
    }
}

// A cell in front of the list that stands in a place.
fn cons_at(
    alloc: Global,
    memory: &mut Memory,
    process: &mut Process,
    spot: Spot,
    element: &[Word],
) -> Result<(), Halt>
    requires place { process.old.frame.pc + 1 < 2 ^ 64 }
    requires live { AreLive memory.old.heap element.now }
    requires held { AreHeld memory.old.heap (names (view_process process.old)) }
    ensures goes { (o : Object) (i : CodeInst) → Goes memory.old process.old result
        (lists.cons_at o (view_world memory.old) (view_process process.old) i (view_spot spot) (words.Found (view_words element.now)))
        memory.new process.new }
    ensures kept { OnErr result (Untouched memory.old process.old memory.new process.new) }
{
    match list_at(memory, process, spot) {
        Ok(rest) => {
            let outcome = store_cell(alloc, memory, process, spot, rest, element);
            go_on(process, outcome)
        }
        Err(fault) => Err(Halt::Fault(fault)),
    }
}

/// A cell with an element of these words in front of the list that the destination has.
///
/// # Errors
/// The fault that the definition has, or want of memory; then memory is as it was.
pub fn cons(
    alloc: Global,
    memory: &mut Memory,
    process: &mut Process,
    inst: Inst,
    element: &[Word],
) -> Result<(), Halt>
    requires place { process.old.frame.pc + 1 < 2 ^ 64 }
    requires live { AreLive memory.old.heap element.now }
    requires held { AreHeld memory.old.heap (names (view_process process.old)) }
    ensures goes { (o : Object) → Goes memory.old process.old result
        (lists.conses o (view_world memory.old) (view_process process.old) inst (words.Found (view_words element.now)))
        memory.new process.new }
    ensures kept { OnErr result (Untouched memory.old process.old memory.new process.new) }
{
    memory.heap.stands();
    match spot_of(memory, process, inst.dst) {
        Ok(spot) => cons_at(alloc, memory, process, spot, element),
        Err(halt) => Err(halt),
    }
}
