//! Results of instructions, and the process that then goes on.

ghost use Rattle.std.specs.Prelude.{◌≡◌, ◌+◌, ◌<◌, ◌^◌, false, IfOk, IfSome, OnErr};
ghost use Rattle.std.specs.Option.{option_map};
ghost use Rattle.limbo_values.specs.Numbers.{kind_of, value_of};
ghost use Rattle.ref_heap.specs.declared.word.Ref.{Ref as CodeRef};
ghost use Rattle.ref_heap.specs.Words.{cell_of, is_reference};
ghost use Rattle.ref_heap.specs.Store.{AreHeld, IsLive};
ghost use Rattle.dis_meaning.specs.Words as words;
ghost use Rattle.dis_memory.specs.Naming.{names};
ghost use Rattle.dis_memory.specs.Places as places;
ghost use Rattle.dis_memory.specs.Process.{next};
ghost use Rattle.dis_memory.specs.Results.{gives_number_at, gives_plain_at, gives_reference_at};
ghost use Rattle.dis_places.specs.View.{view_process, view_spot, view_world};
ghost use Rattle.dis_places.specs.Words.{view_word, GivesFault};
ghost use Rattle.dis_results.specs.Going.{moved_on, told, Goes};

use crate::numbers::store_number;
use dis_places::{
    Fault, Halt, Memory, Process, Raise, Ref, Spot, Word, plain, read, read_number, reference,
};
use dis_stores::{store_plain, store_reference};
use limbo_values::{Kind, Number};

/// The process comes to its next instruction. What it printed is answered no more.
#[inline(always)]
pub fn advance(process: &mut Process)
    requires { process.old.frame.pc + 1 < 2 ^ 64 }
    ensures { view_process process.new ≡ moved_on (view_process process.old) }
{
    process.frame.pc += 1;
    // Few processes wait for a reply: of most nothing is let go.
    if process.printing.is_some() {
        process.printing = None;
    }
}

/// Stores a number, and the process goes on.
#[inline(always)]
pub fn finish_number(
    memory: &mut Memory,
    process: &mut Process,
    spot: Spot,
    number: Number,
) -> Result<(), Halt>
    requires place { process.old.frame.pc + 1 < 2 ^ 64 }
    ensures goes { Goes memory.old process.old result
        (words.◌>>=◌
        (places.store_number (kind_of number) (view_world memory.old) (view_process process.old) (view_spot spot) (value_of number))
        (λ m. words.Found (next m))) memory.new process.new }
    ensures kept { OnErr result ((memory.new ≡ memory.old) × (process.new ≡ process.old)) }
{
    match store_number(memory, process, spot, number) {
        Ok(()) => {
            advance(process);
            Ok(())
        }
        Err(halt) => Err(halt),
    }
}

/// Stores a number, or raises what an operation raised: the destination has one of its kind.
///
/// # Errors
/// The fault that the definition has, what it raises, or want of memory; then nothing has changed.
#[inline(always)]
pub fn give_number(
    memory: &mut Memory,
    process: &mut Process,
    kind: Kind,
    spot: Spot,
    outcome: Result<Number, Raise>,
) -> Result<(), Halt>
    requires place { process.old.frame.pc + 1 < 2 ^ 64 }
    requires kind { IfOk outcome (λ n. kind_of n ≡ kind) }
    ensures goes { Goes memory.old process.old result
        (gives_number_at (view_world memory.old) (view_process process.old) kind (view_spot spot) (told value_of outcome))
        memory.new process.new }
    ensures kept { OnErr result ((memory.new ≡ memory.old) × (process.new ≡ process.old)) }
{
    match read_number(memory, process, kind, spot) {
        Ok(_) => {}
        Err(fault) => return Err(Halt::Fault(fault)),
    }
    match outcome {
        Ok(number) => finish_number(memory, process, spot, number),
        Err(raise) => Err(Halt::Raises(raise)),
    }
}

// A plain word stands there.
#[inline(always)]
fn has_plain(memory: &Memory, process: &Process, spot: Spot) -> Result<Word, Fault>
    ensures { GivesFault view_word result (words.◌>>=◌
        (places.read (view_world memory.now) (view_process process.now) (view_spot spot)) words.plain) }
{
    match read(memory, process, spot) {
        Ok(word) => plain(word),
        Err(fault) => Err(fault),
    }
}

/// Stores a plain word, or raises what an operation raised: the destination has one.
///
/// # Errors
/// The fault that the definition has, what it raises, or want of memory; then nothing has changed.
#[inline(always)]
pub fn give_plain(
    memory: &mut Memory,
    process: &mut Process,
    spot: Spot,
    outcome: Result<Word, Raise>,
) -> Result<(), Halt>
    requires place { process.old.frame.pc + 1 < 2 ^ 64 }
    requires plain { IfOk outcome (λ w. is_reference (cell_of w) ≡ false) }
    ensures goes { Goes memory.old process.old result
        (gives_plain_at (view_world memory.old) (view_process process.old) (view_spot spot) (told view_word outcome))
        memory.new process.new }
    ensures kept { OnErr result ((memory.new ≡ memory.old) × (process.new ≡ process.old)) }
{
    match has_plain(memory, process, spot) {
        Ok(_) => {}
        Err(fault) => return Err(Halt::Fault(fault)),
    }
    let word = match outcome {
        Ok(word) => word,
        Err(raise) => return Err(Halt::Raises(raise)),
    };
    match store_plain(memory, process, spot, word) {
        Ok(()) => {
            advance(process);
            Ok(())
        }
        Err(halt) => Err(halt),
    }
}

/// A reference stands there.
#[inline(always)]
pub fn has_reference(memory: &Memory, process: &Process, spot: Spot) -> Result<Option<Ref>, Fault>
    ensures { GivesFault (option_map (λ (r : CodeRef). r.serial)) result
        (places.reference_at (view_world memory.now) (view_process process.now) (view_spot spot)) }
{
    match read(memory, process, spot) {
        Ok(word) => reference(word),
        Err(fault) => Err(fault),
    }
}

/// Stores a reference to a block that is there, or nil, and the process goes on.
pub fn finish_reference(
    memory: &mut Memory,
    process: &mut Process,
    spot: Spot,
    block: Option<Ref>,
) -> Result<(), Halt>
    requires place { process.old.frame.pc + 1 < 2 ^ 64 }
    requires live { IfSome block (λ r. IsLive memory.old.heap r.serial) }
    requires held { AreHeld memory.old.heap (names (view_process process.old)) }
    ensures goes { Goes memory.old process.old result
        (words.◌>>=◌ (places.store (view_world memory.old) (view_process process.old) (view_spot spot)
        (words.Refer (option_map (λ (r : CodeRef). r.serial) block)))
        (λ m. words.Found (next m))) memory.new process.new }
    ensures kept { OnErr result ((memory.new ≡ memory.old) × (process.new ≡ process.old)) }
{
    match store_reference(memory, process, spot, block) {
        Ok(()) => {
            advance(process);
            Ok(())
        }
        Err(halt) => Err(halt),
    }
}

/// Stores a reference to a block that is there, or nil, or raises what an operation raised: the destination has a reference.
///
/// # Errors
/// The fault that the definition has, what it raises, or want of memory; then nothing has changed.
pub fn give_reference(
    memory: &mut Memory,
    process: &mut Process,
    spot: Spot,
    outcome: Result<Option<Ref>, Raise>,
) -> Result<(), Halt>
    requires place { process.old.frame.pc + 1 < 2 ^ 64 }
    requires live { IfOk outcome (λ o. IfSome o (λ r. IsLive memory.old.heap r.serial)) }
    requires held { AreHeld memory.old.heap (names (view_process process.old)) }
    ensures goes { Goes memory.old process.old result
        (gives_reference_at (view_world memory.old) (view_process process.old) (view_spot spot)
        (told (option_map (λ (r : CodeRef). r.serial)) outcome))
        memory.new process.new }
    ensures kept { OnErr result ((memory.new ≡ memory.old) × (process.new ≡ process.old)) }
{
    match has_reference(memory, process, spot) {
        Ok(_) => {}
        Err(fault) => return Err(Halt::Fault(fault)),
    }
    match outcome {
        Ok(block) => finish_reference(memory, process, spot, block),
        Err(raise) => Err(Halt::Raises(raise)),
    }
}
