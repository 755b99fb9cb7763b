//! Strings that go where operands name, and the process that then goes on.

ghost use Rattle.std.specs.Prelude.{◌≡◌, ◌+◌, ◌<◌, ◌^◌, OnErr};
ghost use Rattle.ref_heap.specs.Store.{AreHeld};
ghost use Rattle.dis_meaning.specs.Words as words;
ghost use Rattle.dis_memory.specs.Blocks as blocks;
ghost use Rattle.dis_memory.specs.Naming.{names};
ghost use Rattle.dis_memory.specs.Results.{gives_block, gives_block_at};
ghost use Rattle.dis_places.specs.View.{view_process, view_spot, view_world};
ghost use Rattle.dis_results.specs.Going.{Goes};
ghost use Rattle.dis_strings.specs.Telling.{as_block, told_text};

use dis_blocks::store_text;
use dis_isa::Operand;
use dis_places::{Halt, Memory, Process, Raise, Spot, spot_of};
use dis_results::{advance, has_reference};

/// Makes a string and stores a reference to it where one stands, and the process goes on.
pub fn finish_text(
    memory: &mut Memory,
    process: &mut Process,
    spot: Spot,
    text: Vec<u32>,
) -> Result<(), Halt>
    requires place { process.old.frame.pc + 1 < 2 ^ 64 }
    requires held { AreHeld memory.old.heap (names (view_process process.old)) }
    ensures goes { Goes memory.old process.old result
        (gives_block_at (view_world memory.old) (view_process process.old) (view_spot spot) (words.Found (blocks.Text text.items)))
        memory.new process.new }
    ensures kept { OnErr result ((memory.new ≡ memory.old) × (process.new ≡ process.old)) }
{
    match store_text(memory, process, spot, text) {
        Ok(()) => {
            advance(process);
            Ok(())
        }
        Err(halt) => Err(halt),
    }
}

/// Makes a string and stores a reference to it where one stands, or raises what an operation raised: the destination has a reference.
///
/// # Errors
/// The fault that the definition has, what it raises, or want of memory; then nothing has changed.
pub fn give_text(
    memory: &mut Memory,
    process: &mut Process,
    spot: Spot,
    outcome: Result<Vec<u32>, Raise>,
) -> Result<(), Halt>
    requires place { process.old.frame.pc + 1 < 2 ^ 64 }
    requires held { AreHeld memory.old.heap (names (view_process process.old)) }
    ensures goes { Goes memory.old process.old result
        (gives_block_at (view_world memory.old) (view_process process.old) (view_spot spot) (as_block (told_text outcome)))
        memory.new process.new }
    ensures kept { OnErr result ((memory.new ≡ memory.old) × (process.new ≡ process.old)) }
{
    match has_reference(memory, process, spot) {
        Ok(_) => {}
        Err(fault) => return Err(Halt::Fault(fault)),
    }
    match outcome {
        Ok(text) => finish_text(memory, process, spot, text),
        Err(raise) => Err(Halt::Raises(raise)),
    }
}

/// Gives a string to a destination.
pub fn text_to(
    memory: &mut Memory,
    process: &mut Process,
    destination: Operand,
    outcome: Result<Vec<u32>, Raise>,
) -> Result<(), Halt>
    requires place { process.old.frame.pc + 1 < 2 ^ 64 }
    requires held { AreHeld memory.old.heap (names (view_process process.old)) }
    ensures goes { Goes memory.old process.old result
        (gives_block (view_world memory.old) (view_process process.old) destination (as_block (told_text outcome)))
        memory.new process.new }
    ensures kept { OnErr result ((memory.new ≡ memory.old) × (process.new ≡ process.old)) }
{
    match spot_of(memory, process, destination) {
        Ok(spot) => give_text(memory, process, spot, outcome),
        Err(halt) => Err(halt),
    }
}
