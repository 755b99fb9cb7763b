//! Instructions that go on elsewhere where a comparison holds (Dis Virtual Machine Specification, the instructions by name).

ghost use Rattle.std.specs.Prelude.{◌≡◌, ◌+◌, ◌<◌, ◌^◌, OnErr};
ghost use Rattle.std.specs.Option.{option_map};
ghost use Rattle.limbo_values.specs.declared.number.Kind.TheVariants.{Int};
ghost use Rattle.limbo_values.specs.Numbers.{kind_of, value_of};
ghost use Rattle.limbo_values.specs.Operators as values;
ghost use Rattle.ref_heap.specs.declared.word.Ref.{Ref as CodeRef};
ghost use Rattle.dis_meaning.specs.Words as words;
ghost use Rattle.dis_memory.specs.Numbers as numbers;
ghost use Rattle.dis_places.specs.View.{view_process, view_world};
ghost use Rattle.dis_places.specs.Words.{view_word, GivesFault};
ghost use Rattle.dis_numbers.specs.Branching.{branched, number_branches};
ghost use Rattle.dis_results.specs.Going.{Goes};

use dis_code::{Code, jump_to, target};
use dis_isa::Inst;
use dis_places::{
    Fault, Halt, Memory, Process, Ref, Word, given_of, middle_word, number_in, source_of,
    source_word,
};
use dis_results::advance;
use limbo_values::{Comparison, Kind, compare};

// The process goes on there, or with the next instruction.
#[inline(always)]
fn branch(process: &mut Process, taken: bool, pc: usize)
    requires { process.old.frame.pc + 1 < 2 ^ 64 }
    ensures { view_process process.new ≡ branched (view_process process.old) taken pc }
{
    if taken {
        jump_to(process, pc);
    } else {
        advance(process);
    }
}

// Whether two references name one block, or nothing both.
fn same(left: Option<Ref>, right: Option<Ref>) -> bool
    ensures { result ≡ numbers.same_reference (option_map (λ (r : CodeRef). r.serial) left) (option_map (λ (r : CodeRef). r.serial) right) }
{
    match (left, right) {
        (None, None) => true,
        (Some(a), Some(b)) => a.serial == b.serial,
        (None, Some(_)) => false,
        (Some(_), None) => false,
    }
}

fn compare_references(
    comparison: Comparison,
    left: Option<Ref>,
    right: Option<Ref>,
) -> Result<bool, Fault>
    ensures { GivesFault (λ b. b) result (numbers.references_compared comparison
        (option_map (λ (r : CodeRef). r.serial) left) (option_map (λ (r : CodeRef). r.serial) right)) }
{
    match comparison {
        Comparison::Equal => Ok(same(left, right)),
        Comparison::Unequal => Ok(!same(left, right)),
        _ => Err(Fault::TypeCheck),
    }
}

// Two words that don't both refer are compared as numbers.
#[inline(always)]
fn compare_numbers(comparison: Comparison, left: Word, right: Word) -> Result<bool, Fault>
    ensures { GivesFault (λ b. b) result (words.◌>>=◌ (words.number_in (view_word left)) (λ a.
        words.◌>>=◌ (words.number_in (view_word right)) (λ b. words.Found (values.compared comparison a b)))) }
{
    let left = number_in(left)?;
    let right = number_in(right)?;
    Ok(comparison.is_met(left.cmp(&right)))
}

#[inline(always)]
fn compare_words(comparison: Comparison, left: Word, right: Word) -> Result<bool, Fault>
    ensures { GivesFault (λ b. b) result (numbers.words_compared comparison (view_word left) (view_word right)) }
{
    match (left, right) {
        (Word::Refer(a), Word::Refer(b)) => compare_references(comparison, a, b),
        _ => compare_numbers(comparison, left, right),
    }
}

// Ints and references, which stand in words.
#[inline(always)]
fn branch_words(
    code: &Code,
    memory: &Memory,
    process: &mut Process,
    comparison: Comparison,
    inst: Inst,
) -> Result<(), Halt>
    requires place { process.old.frame.pc + 1 < 2 ^ 64 }
    ensures goes { Goes memory.now process.old result
        (numbers.branches code.now.object (view_world memory.now) (view_process process.old) inst Int comparison) memory.now process.new }
    ensures kept { OnErr result (process.new ≡ process.old) }
{
    memory.heap.stands();
    let left = match source_word(memory, process, inst.src) {
        Ok(left) => left,
        Err(halt) => return Err(halt),
    };
    let right = match middle_word(memory, process, inst.middle) {
        Ok(right) => right,
        Err(fault) => return Err(Halt::Fault(fault)),
    };
    let taken = match compare_words(comparison, left, right) {
        Ok(taken) => taken,
        Err(fault) => return Err(Halt::Fault(fault)),
    };
    match target(&code.object, inst.dst) {
        Ok(pc) => {
            branch(process, taken, pc);
            Ok(())
        }
        Err(fault) => Err(Halt::Fault(fault)),
    }
}

// Bytes and bigs.
fn branch_numbers(
    code: &Code,
    memory: &Memory,
    process: &mut Process,
    kind: Kind,
    comparison: Comparison,
    inst: Inst,
) -> Result<(), Halt>
    requires place { process.old.frame.pc + 1 < 2 ^ 64 }
    ensures goes { Goes memory.now process.old result
        (number_branches code.now.object (view_world memory.now) (view_process process.old) inst kind comparison) memory.now process.new }
    ensures kept { OnErr result (process.new ≡ process.old) }
{
    memory.heap.stands();
    let left = match source_of(memory, process, kind, inst.src) {
        Ok(left) => left,
        Err(halt) => return Err(halt),
    };
    let right = match given_of(memory, process, kind, inst.middle) {
        Ok(right) => right,
        Err(fault) => return Err(Halt::Fault(fault)),
    };
    match target(&code.object, inst.dst) {
        Ok(pc) => {
            branch(process, compare(comparison, left, right), pc);
            Ok(())
        }
        Err(fault) => Err(Halt::Fault(fault)),
    }
}

/// A branch: the process goes on at the destination where the source stands so to the middle.
pub fn branch_where(
    code: &Code,
    memory: &Memory,
    process: &mut Process,
    kind: Kind,
    comparison: Comparison,
    inst: Inst,
) -> Result<(), Halt>
    requires place { process.old.frame.pc + 1 < 2 ^ 64 }
    ensures goes { Goes memory.now process.old result
        (numbers.branches code.now.object (view_world memory.now) (view_process process.old) inst kind comparison) memory.now process.new }
    ensures kept { OnErr result (process.new ≡ process.old) }
{
    match kind {
        Kind::Int => branch_words(code, memory, process, comparison, inst),
        Kind::Byte => branch_numbers(code, memory, process, Kind::Byte, comparison, inst),
        Kind::Big => branch_numbers(code, memory, process, Kind::Big, comparison, inst),
    }
}
