//! Instructions that put a cell in front of a list (Dis Virtual Machine Specification, the instructions by name): consb, consw, consl,
//! consp.

ghost use Rattle.std.specs.Prelude.{◌≡◌, ℕ, ◌+◌, ◌<◌, ◌^◌, pos, [], ◌∷◌, OnErr};
ghost use Rattle.limbo_values.specs.Numbers.{kind_of, value_of};
ghost use Rattle.dis_file.specs.declared.object.Object.{Object};
ghost use Rattle.ref_heap.specs.Store.{AreHeld};
ghost use Rattle.dis_meaning.specs.Numbers.{with_number_at};
ghost use Rattle.dis_memory.specs.Lists as lists;
ghost use Rattle.dis_memory.specs.Lists.{holder_of};
ghost use Rattle.dis_memory.specs.Naming.{names};
ghost use Rattle.dis_blocks.specs.Making.{Untouched};
ghost use Rattle.dis_copies.specs.Spans.{all_named};
ghost use Rattle.dis_meaning.specs.Words.{Plain};
ghost use Rattle.dis_places.specs.Words.{view_word};
ghost use Rattle.dis_places.specs.View.{view_process, view_world};
ghost use Rattle.dis_results.specs.Going.{Goes};

use crate::fronts::cons;
use dis_isa::Inst;
use dis_places::{Halt, Memory, Process, Word, source_of};
use dis_results::{high_part, low_part, source_reference, with_byte};
use limbo_values::{Kind, Number};
use std::alloc::Global;

// The number of this word.
fn plain(z: i32) -> Word
    ensures word { view_word result ≡ Plain z }
    ensures named { (n : ℕ) → all_named (result ∷ []) n ≡ 0 }
{
    Word::Plain(z.cast_unsigned())
}

// A cell with a number in front of the list that the destination has.
fn cons_of(
    alloc: Global,
    memory: &mut Memory,
    process: &mut Process,
    inst: Inst,
    number: Number,
) -> Result<(), Halt>
    requires place { process.old.frame.pc + 1 < 2 ^ 64 }
    requires held { AreHeld memory.old.heap (names (view_process process.old)) }
    ensures goes { (o : Object) → Goes memory.old process.old result
        (lists.conses o (view_world memory.old) (view_process process.old) inst
        (with_number_at (kind_of number) (holder_of (kind_of number)) (pos 0) (value_of number)))
        memory.new process.new }
    ensures kept { OnErr result (Untouched memory.old process.old memory.new process.new) }
{
    match number {
        Number::Byte(byte) => {
            let word = plain(with_byte(0, 0, byte));
            cons(alloc, memory, process, inst, &[word])
        }
        Number::Int(z) => {
            let word = plain(z);
            cons(alloc, memory, process, inst, &[word])
        }
        Number::Big(z) => {
            let high = plain(high_part(z));
            let low = plain(low_part(z));
            cons(alloc, memory, process, inst, &[high, low])
        }
    }
}

/// `consb`, `consw` and `consl`: the source's number.
pub fn cons_number(
    alloc: Global,
    memory: &mut Memory,
    process: &mut Process,
    kind: Kind,
    inst: Inst,
) -> Result<(), Halt>
    requires place { process.old.frame.pc + 1 < 2 ^ 64 }
    requires held { AreHeld memory.old.heap (names (view_process process.old)) }
    ensures goes { (o : Object) → Goes memory.old process.old result
        (lists.cons_number o (view_world memory.old) (view_process process.old) inst kind) memory.new process.new }
    ensures kept { OnErr result (Untouched memory.old process.old memory.new process.new) }
{
    memory.heap.stands();
    match source_of(memory, process, kind, inst.src) {
        Ok(number) => cons_of(alloc, memory, process, inst, number),
        Err(halt) => Err(halt),
    }
}

/// `consp`: the source's reference.
pub fn consp(
    alloc: Global,
    memory: &mut Memory,
    process: &mut Process,
    inst: Inst,
) -> Result<(), Halt>
    requires place { process.old.frame.pc + 1 < 2 ^ 64 }
    requires held { AreHeld memory.old.heap (names (view_process process.old)) }
    ensures goes { (o : Object) → Goes memory.old process.old result
        (lists.consp o (view_world memory.old) (view_process process.old) inst) memory.new process.new }
    ensures kept { OnErr result (Untouched memory.old process.old memory.new process.new) }
{
    match source_reference(memory, process, inst.src) {
        Ok(block) => cons(alloc, memory, process, inst, &[Word::Refer(block)]),
        Err(halt) => Err(halt),
    }
}
