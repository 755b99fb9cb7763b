//! What operands refer to, and results that go where operands name.

ghost use Rattle.std.specs.Prelude.{◌≡◌, ◌+◌, ◌<◌, ◌^◌, pos, IfOk, IfSome, OnErr};
ghost use Rattle.std.specs.Option.{option_map};
ghost use Rattle.limbo_values.specs.declared.number.Kind.TheVariants as kind;
ghost use Rattle.limbo_values.specs.Numbers.{kind_of, value_of};
ghost use Rattle.ref_heap.specs.declared.word.Ref.{Ref as CodeRef};
ghost use Rattle.ref_heap.specs.Store.{AreHeld, IsLive};
ghost use Rattle.dis_meaning.specs.Words as words;
ghost use Rattle.dis_memory.specs.Naming.{names};
ghost use Rattle.dis_memory.specs.Places as places;
ghost use Rattle.dis_memory.specs.Results.{gives_number, gives_reference};
ghost use Rattle.dis_places.specs.View.{view_process, view_world};
ghost use Rattle.dis_places.specs.Words.{Gives};
ghost use Rattle.dis_results.specs.Going.{told, Goes};

use crate::giving::{give_number, give_reference};
use dis_isa::Operand;
use dis_places::{Halt, Memory, Process, Raise, Ref, Spot, reference, source_word, spot_of};
use limbo_values::{Kind, Number};

/// The block that a source refers to, or nothing. That block is there.
pub fn source_reference(
    memory: &Memory,
    process: &Process,
    source: Operand,
) -> Result<Option<Ref>, Halt>
    ensures block { Gives (option_map (λ (r : CodeRef). r.serial)) result
        (places.source_reference (view_world memory.now) (view_process process.now) source) }
    ensures live { AreHeld memory.now.heap (names (view_process process.now))
        → IfOk result (λ o. IfSome o (λ r. IsLive memory.now.heap r.serial)) }
{
    memory.heap.stands();
    let word = match source_word(memory, process, source) {
        Ok(word) => word,
        Err(halt) => return Err(halt),
    };
    match reference(word) {
        Ok(block) => Ok(block),
        Err(fault) => Err(Halt::Fault(fault)),
    }
}

// Gives a number to any destination.
#[inline(never)]
fn number_anywhere(
    memory: &mut Memory,
    process: &mut Process,
    kind: Kind,
    destination: Operand,
    outcome: Result<Number, Raise>,
) -> Result<(), Halt>
    requires place { process.old.frame.pc + 1 < 2 ^ 64 }
    requires kind { IfOk outcome (λ n. kind_of n ≡ kind) }
    ensures goes { Goes memory.old process.old result
        (gives_number (view_world memory.old) (view_process process.old) kind destination (told value_of outcome))
        memory.new process.new }
    ensures kept { OnErr result ((memory.new ≡ memory.old) × (process.new ≡ process.old)) }
{
    match spot_of(memory, process, destination) {
        Ok(spot) => give_number(memory, process, kind, spot, outcome),
        Err(halt) => Err(halt),
    }
}

/// Gives a number to a destination.
#[inline(always)]
pub fn number_to(
    memory: &mut Memory,
    process: &mut Process,
    kind: Kind,
    destination: Operand,
    outcome: Result<Number, Raise>,
) -> Result<(), Halt>
    requires place { process.old.frame.pc + 1 < 2 ^ 64 }
    requires kind { IfOk outcome (λ n. kind_of n ≡ kind) }
    ensures goes { Goes memory.old process.old result
        (gives_number (view_world memory.old) (view_process process.old) kind destination (told value_of outcome))
        memory.new process.new }
    ensures kept { OnErr result ((memory.new ≡ memory.old) × (process.new ≡ process.old)) }
{
    match destination {
        // Most results go into the running frame.
        Operand::Fp(at) => give_number(memory, process, kind, Spot::Own(i64::from(at)), outcome),
        _ => number_anywhere(memory, process, kind, destination, outcome),
    }
}

/// Gives a number that isn't below 0 to a destination, as an int. No memory has so many things, and no character so great a code, that it
/// would be none.
pub fn natural_to(
    memory: &mut Memory,
    process: &mut Process,
    destination: Operand,
    count: u64,
) -> Result<(), Halt>
    requires place { process.old.frame.pc + 1 < 2 ^ 64 }
    ensures goes { Goes memory.old process.old result
        (gives_number (view_world memory.old) (view_process process.old) kind.Int destination (words.Found (pos count)))
        memory.new process.new }
    ensures kept { OnErr result ((memory.new ≡ memory.old) × (process.new ≡ process.old)) }
{
    match i32::try_from(count) {
        Ok(n) => number_to(memory, process, Kind::Int, destination, Ok(Number::Int(n))),
        Err(_) => Err(Halt::NoMemory),
    }
}

/// Gives a reference to a destination.
pub fn reference_to(
    memory: &mut Memory,
    process: &mut Process,
    destination: Operand,
    outcome: Result<Option<Ref>, Raise>,
) -> Result<(), Halt>
    requires place { process.old.frame.pc + 1 < 2 ^ 64 }
    requires live { IfOk outcome (λ o. IfSome o (λ r. IsLive memory.old.heap r.serial)) }
    requires held { AreHeld memory.old.heap (names (view_process process.old)) }
    ensures goes { Goes memory.old process.old result
        (gives_reference (view_world memory.old) (view_process process.old) destination
        (told (option_map (λ (r : CodeRef). r.serial)) outcome))
        memory.new process.new }
    ensures kept { OnErr result ((memory.new ≡ memory.old) × (process.new ≡ process.old)) }
{
    match spot_of(memory, process, destination) {
        Ok(spot) => give_reference(memory, process, spot, outcome),
        Err(halt) => Err(halt),
    }
}
