//! Instructions on the first cell of a list (Dis Virtual Machine Specification, the instructions by name): headb, headw, headl, headp,
//! tail.

ghost use Rattle.std.specs.Prelude.{◌≡◌, ◌+◌, ◌<◌, ◌^◌, pos, Some, IfOk, IfSome, OnErr, slice_index};
ghost use Rattle.std.specs.Option.{option_map};
ghost use Rattle.limbo_values.specs.declared.number.Kind.TheVariants as kind;
ghost use Rattle.limbo_values.specs.Numbers.{kind_of, value_of};
ghost use Rattle.dis_file.specs.declared.object.Object.{Object};
ghost use Rattle.ref_heap.specs.declared.word.Ref.{Ref as CodeRef};
ghost use Rattle.ref_heap.specs.Store.{AreHeld, IsLive};
ghost use Rattle.dis_meaning.specs.Numbers as numbers;
ghost use Rattle.dis_meaning.specs.Words as words;
ghost use Rattle.dis_memory.specs.Kinds.{first_cell};
ghost use Rattle.dis_memory.specs.Lists as lists;
ghost use Rattle.dis_memory.specs.Naming.{names};
ghost use Rattle.dis_memory.specs.Places as places;
ghost use Rattle.dis_memory.specs.Results.{gives_number_at, gives_reference_at};
ghost use Rattle.dis_places.specs.View.{view_process, view_spot, view_world};
ghost use Rattle.dis_places.specs.Words.{Gives, GivesFault};
ghost use Rattle.dis_kinds.specs.Views.{view_linked};
ghost use Rattle.dis_results.specs.Going.{Goes};

use crate::giving::{finish_number, finish_reference, give_number, give_reference, has_reference};
use crate::operands::source_reference;
use dis_isa::{Inst, Operand};
use dis_kinds::{element_word, first_cell, rest_of};
use dis_places::{
    Fault, Halt, Memory, Process, Raise, Ref, Spot, byte_of, joined, number_in, read_number,
    reference, spot_of,
};
use limbo_values::{Kind, Number};

/// The first cell of the list that a source refers to.
pub fn source_cell(memory: &Memory, process: &Process, source: Operand) -> Result<Option<Ref>, Halt>
    ensures { Gives (option_map (view_linked memory.now)) result (words.◌>>=◌
        (places.source_reference (view_world memory.now) (view_process process.now) source) (first_cell (view_world memory.now))) }
{
    let list = match source_reference(memory, process, source) {
        Ok(list) => list,
        Err(halt) => return Err(halt),
    };
    match first_cell(memory, list) {
        Ok(cell) => Ok(cell),
        Err(fault) => Err(Halt::Fault(fault)),
    }
}

// The number in the word of this number of a cell's element.
fn element_nth(memory: &Memory, cell: Ref, k: usize) -> Result<i32, Fault>
    ensures { GivesFault (λ n. n) result (numbers.nth_number (view_linked memory.now cell).element k) }
{
    let word = element_word(memory, cell, k)?;
    number_in(word)
}

fn element_byte(memory: &Memory, cell: Ref) -> Result<u8, Fault>
    ensures { GivesFault pos result (numbers.number_at kind.Byte (view_linked memory.now cell).element (pos 0)) }
{
    let word = element_nth(memory, cell, 0)?;
    Ok(byte_of(word, 0))
}

fn element_big(memory: &Memory, cell: Ref) -> Result<i64, Fault>
    ensures { GivesFault (λ n. n) result (numbers.number_at kind.Big (view_linked memory.now cell).element (pos 0)) }
{
    let high = element_nth(memory, cell, 0)?;
    let low = element_nth(memory, cell, 1)?;
    Ok(joined(high, low))
}

// The number of a kind that a cell's element is.
fn element_number(memory: &Memory, cell: Ref, kind: Kind) -> Result<Number, Fault>
    ensures number { GivesFault value_of result (numbers.number_at kind (view_linked memory.now cell).element (pos 0)) }
    ensures kind { IfOk result (λ n. kind_of n ≡ kind) }
{
    match kind {
        Kind::Byte => Ok(Number::Byte(element_byte(memory, cell)?)),
        Kind::Int => Ok(Number::Int(element_nth(memory, cell, 0)?)),
        Kind::Big => Ok(Number::Big(element_big(memory, cell)?)),
    }
}

// The number of a cell goes to a place that is looked at first.
fn give_element(
    memory: &mut Memory,
    process: &mut Process,
    kind: Kind,
    spot: Spot,
    cell: Ref,
) -> Result<(), Halt>
    requires place { process.old.frame.pc + 1 < 2 ^ 64 }
    ensures goes { Goes memory.old process.old result
        (gives_number_at (view_world memory.old) (view_process process.old) kind (view_spot spot)
        (numbers.number_at kind (view_linked memory.old cell).element (pos 0))) memory.new process.new }
    ensures kept { OnErr result ((memory.new ≡ memory.old) × (process.new ≡ process.old)) }
{
    match read_number(memory, process, kind, spot) {
        Ok(_) => {}
        Err(fault) => return Err(Halt::Fault(fault)),
    }
    match element_number(memory, cell, kind) {
        Ok(number) => finish_number(memory, process, spot, number),
        Err(fault) => Err(Halt::Fault(fault)),
    }
}

/// `headb`, `headw` and `headl`: the number that a list begins with. Nil begins with none.
pub fn head_number(
    memory: &mut Memory,
    process: &mut Process,
    kind: Kind,
    inst: Inst,
) -> Result<(), Halt>
    requires place { process.old.frame.pc + 1 < 2 ^ 64 }
    ensures goes { (o : Object) → Goes memory.old process.old result
        (lists.head_number o (view_world memory.old) (view_process process.old) inst kind) memory.new process.new }
    ensures kept { OnErr result ((memory.new ≡ memory.old) × (process.new ≡ process.old)) }
{
    let first = match source_cell(memory, process, inst.src) {
        Ok(first) => first,
        Err(halt) => return Err(halt),
    };
    let spot = match spot_of(memory, process, inst.dst) {
        Ok(spot) => spot,
        Err(halt) => return Err(halt),
    };
    match first {
        Some(cell) => give_element(memory, process, kind, spot, cell),
        None => give_number(memory, process, kind, spot, Err(Raise::Nil)),
    }
}

// The block that a cell's element refers to, which is there; or nothing.
fn element_reference(memory: &Memory, cell: Ref) -> Result<Option<Ref>, Fault>
    ensures block { GivesFault (option_map (λ (r : CodeRef). r.serial)) result
        (words.◌>>=◌ (words.word_at (view_linked memory.now cell).element (pos 0)) words.reference) }
    ensures live { IfOk result (λ o. IfSome o (λ r. IsLive memory.now.heap r.serial)) }
{
    memory.heap.stands();
    match element_word(memory, cell, 0) {
        Ok(word) => reference(word),
        Err(fault) => Err(fault),
    }
}

// The reference of a cell goes to a place that is looked at first.
fn give_referred(
    memory: &mut Memory,
    process: &mut Process,
    spot: Spot,
    cell: Ref,
) -> Result<(), Halt>
    requires place { process.old.frame.pc + 1 < 2 ^ 64 }
    requires held { AreHeld memory.old.heap (names (view_process process.old)) }
    ensures goes { Goes memory.old process.old result
        (gives_reference_at (view_world memory.old) (view_process process.old) (view_spot spot)
        (words.◌>>=◌ (words.word_at (view_linked memory.old cell).element (pos 0)) words.reference)) memory.new process.new }
    ensures kept { OnErr result ((memory.new ≡ memory.old) × (process.new ≡ process.old)) }
{
    match has_reference(memory, process, spot) {
        Ok(_) => {}
        Err(fault) => return Err(Halt::Fault(fault)),
    }
    match element_reference(memory, cell) {
        Ok(block) => finish_reference(memory, process, spot, block),
        Err(fault) => Err(Halt::Fault(fault)),
    }
}

/// `headp`: the reference that a list begins with. Nil begins with none.
pub fn headp(memory: &mut Memory, process: &mut Process, inst: Inst) -> Result<(), Halt>
    requires place { process.old.frame.pc + 1 < 2 ^ 64 }
    requires held { AreHeld memory.old.heap (names (view_process process.old)) }
    ensures goes { (o : Object) → Goes memory.old process.old result
        (lists.headp o (view_world memory.old) (view_process process.old) inst) memory.new process.new }
    ensures kept { OnErr result ((memory.new ≡ memory.old) × (process.new ≡ process.old)) }
{
    let first = match source_cell(memory, process, inst.src) {
        Ok(first) => first,
        Err(halt) => return Err(halt),
    };
    let spot = match spot_of(memory, process, inst.dst) {
        Ok(spot) => spot,
        Err(halt) => return Err(halt),
    };
    match first {
        Some(cell) => give_referred(memory, process, spot, cell),
        None => give_reference(memory, process, spot, Err(Raise::Nil)),
    }
}

// The rest behind a cell, which is there; or nothing.
fn rest_behind(memory: &Memory, cell: Ref) -> Option<Ref>
    ensures rest { option_map (λ (r : CodeRef). r.serial) result ≡ (view_linked memory.now cell).rest }
    ensures live { IfSome result (λ r. IsLive memory.now.heap r.serial) }
{
    memory.heap.stands();
    rest_of(memory, cell)
}

/// `tail`: the rest of a list behind its first cell. Nil has none.
pub fn tail(memory: &mut Memory, process: &mut Process, inst: Inst) -> Result<(), Halt>
    requires place { process.old.frame.pc + 1 < 2 ^ 64 }
    requires held { AreHeld memory.old.heap (names (view_process process.old)) }
    ensures goes { (o : Object) → Goes memory.old process.old result
        (lists.tail o (view_world memory.old) (view_process process.old) inst) memory.new process.new }
    ensures kept { OnErr result ((memory.new ≡ memory.old) × (process.new ≡ process.old)) }
{
    let first = match source_cell(memory, process, inst.src) {
        Ok(first) => first,
        Err(halt) => return Err(halt),
    };
    let spot = match spot_of(memory, process, inst.dst) {
        Ok(spot) => spot,
        Err(halt) => return Err(halt),
    };
    match first {
        Some(cell) => {
            let rest = rest_behind(memory, cell);
            give_reference(memory, process, spot, Ok(rest))
        }
        None => give_reference(memory, process, spot, Err(Raise::Nil)),
    }
}
