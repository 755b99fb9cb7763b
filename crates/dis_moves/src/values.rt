//! Instructions that move a value of a type with its references (Dis Virtual Machine Specification, the instructions by name): movmp,
//! headmp, consmp.

ghost use Rattle.std.specs.Prelude.{◌≡◌, ◌+◌, ◌<◌, ◌^◌, IfOk, OnErr};
ghost use Rattle.std.specs.Option.{option_map};
ghost use Rattle.ref_heap.specs.Store.{AreHeld};
ghost use Rattle.dis_memory.specs.Data as moves;
ghost use Rattle.dis_memory.specs.Lists as lists;
ghost use Rattle.dis_memory.specs.Naming.{names};
ghost use Rattle.dis_blocks.specs.Making.{Untouched};
ghost use Rattle.dis_copies.specs.Spans.{AreLive};
ghost use Rattle.dis_kinds.specs.Views.{view_linked};
ghost use Rattle.dis_moves.specs.Values.{head_at, value_named};
ghost use Rattle.dis_places.specs.View.{view_process, view_spot, view_world};
ghost use Rattle.dis_places.specs.Words.{view_words, Gives};
ghost use Rattle.dis_results.specs.Going.{Goes};

use crate::elements::element_value;
use crate::givings::{finish_words, value_to};
use dis_code::{Code, middle_type};
use dis_file::TypeDesc;
use dis_isa::Inst;
use dis_kinds::typed_words;
use dis_lists::cons;
use dis_places::{Halt, Memory, Process, Raise, Ref, Spot, Word, reach, spot_of, word_number};
use dis_results::source_cell;
use std::alloc::Global;

// The words of the source's value, of the middle's type, all of whose references lead to blocks that are there.
fn value_named(
    alloc: Global,
    code: &Code,
    memory: &Memory,
    process: &Process,
    inst: Inst,
) -> Result<Vec<Word>, Halt>
    ensures words { Gives (λ found. view_words found.items) result
        (value_named code.now.object (view_world memory.now) (view_process process.now) inst) }
    ensures live { AreHeld memory.now.heap (names (view_process process.now)) → IfOk result (λ found. AreLive memory.now.heap found.items) }
{
    memory.heap.stands();
    let spot = match spot_of(memory, process, inst.src) {
        Ok(spot) => spot,
        Err(halt) => return Err(halt),
    };
    let region = match reach(memory, process, spot) {
        Ok(region) => region,
        Err(fault) => return Err(Halt::Fault(fault)),
    };
    let from = match word_number(spot.byte()) {
        Ok(from) => from,
        Err(fault) => return Err(Halt::Fault(fault)),
    };
    match middle_type(&code.object, inst.middle) {
        Ok(desc) => typed_words(alloc, memory, process, desc, region, from),
        Err(fault) => Err(Halt::Fault(fault)),
    }
}

/// `movmp`: the source's value, of the middle's type, goes over what stands in the destination.
pub fn movmp(
    alloc: Global,
    code: &Code,
    memory: &mut Memory,
    process: &mut Process,
    inst: Inst,
) -> Result<(), Halt>
    requires place { process.old.frame.pc + 1 < 2 ^ 64 }
    requires held { AreHeld memory.old.heap (names (view_process process.old)) }
    ensures goes { Goes memory.old process.old result
        (moves.movmp code.now.object (view_world memory.old) (view_process process.old) inst) memory.new process.new }
    ensures kept { OnErr result (Untouched memory.old process.old memory.new process.new) }
{
    memory.heap.stands();
    match value_named(alloc, code, memory, process, inst) {
        Ok(words) => {
            let mut words = words;
            value_to(memory, process, inst.dst, &mut words)
        }
        Err(halt) => Err(halt),
    }
}

/// `consmp`: a cell with the source's value, of the middle's type, in front of the list that the destination has.
pub fn consmp(
    alloc: Global,
    code: &Code,
    memory: &mut Memory,
    process: &mut Process,
    inst: Inst,
) -> Result<(), Halt>
    requires place { process.old.frame.pc + 1 < 2 ^ 64 }
    requires held { AreHeld memory.old.heap (names (view_process process.old)) }
    ensures goes { Goes memory.old process.old result
        (lists.consmp code.now.object (view_world memory.old) (view_process process.old) inst) memory.new process.new }
    ensures kept { OnErr result (Untouched memory.old process.old memory.new process.new) }
{
    memory.heap.stands();
    match value_named(alloc, code, memory, process, inst) {
        Ok(words) => cons(alloc, memory, process, inst, &words),
        Err(halt) => Err(halt),
    }
}

// The value of a cell goes over what stands in a place. Nil has none.
fn give_head(
    alloc: Global,
    memory: &mut Memory,
    process: &mut Process,
    spot: Spot,
    first: Option<Ref>,
    desc: &TypeDesc,
) -> Result<(), Halt>
    requires place { process.old.frame.pc + 1 < 2 ^ 64 }
    requires held { AreHeld memory.old.heap (names (view_process process.old)) }
    ensures goes { Goes memory.old process.old result
        (head_at (view_world memory.old) (view_process process.old) (option_map (view_linked memory.old) first) desc.now (view_spot spot))
        memory.new process.new }
    ensures kept { OnErr result (Untouched memory.old process.old memory.new process.new) }
{
    memory.heap.stands();
    match reach(memory, process, spot) {
        Ok(_) => {}
        Err(fault) => return Err(Halt::Fault(fault)),
    }
    let to = match word_number(spot.byte()) {
        Ok(to) => to,
        Err(fault) => return Err(Halt::Fault(fault)),
    };
    let Some(cell) = first else {
        return Err(Halt::Raises(Raise::Nil));
    };
    match element_value(alloc, memory, process, cell, desc) {
        Ok(words) => {
            let mut words = words;
            finish_words(memory, process, spot, to, &mut words)
        }
        Err(halt) => Err(halt),
    }
}

/// `headmp`: the value that a list begins with, of the middle's type, goes over what stands in the destination. Nil begins with none.
pub fn headmp(
    alloc: Global,
    code: &Code,
    memory: &mut Memory,
    process: &mut Process,
    inst: Inst,
) -> Result<(), Halt>
    requires place { process.old.frame.pc + 1 < 2 ^ 64 }
    requires held { AreHeld memory.old.heap (names (view_process process.old)) }
    ensures goes { Goes memory.old process.old result
        (lists.headmp code.now.object (view_world memory.old) (view_process process.old) inst) memory.new process.new }
    ensures kept { OnErr result (Untouched memory.old process.old memory.new process.new) }
{
    memory.heap.stands();
    let first = match source_cell(memory, process, inst.src) {
        Ok(first) => first,
        Err(halt) => return Err(halt),
    };
    let desc = match middle_type(&code.object, inst.middle) {
        Ok(desc) => desc,
        Err(fault) => return Err(Halt::Fault(fault)),
    };
    match spot_of(memory, process, inst.dst) {
        Ok(spot) => give_head(alloc, memory, process, spot, first, desc),
        Err(halt) => Err(halt),
    }
}
