//! Blocks that instructions give to a place, and the process that then goes on.

ghost use Rattle.std.specs.Prelude.{◌≡◌, ◌+◌, ◌<◌, ◌≤◌, ◌^◌, IfOk, OnErr, OnOk};
ghost use Rattle.ref_heap.specs.Store.{AreHeld, IsLive};
ghost use Rattle.dis_meaning.specs.Words as words;
ghost use Rattle.dis_memory.specs.Blocks as blocks;
ghost use Rattle.dis_memory.specs.Naming.{names};
ghost use Rattle.dis_memory.specs.Results.{gives_block_at};
ghost use Rattle.dis_places.specs.Blocks.{type_by};
ghost use Rattle.dis_places.specs.View.{view_process, view_spot, view_world};
ghost use Rattle.dis_results.specs.Going.{moved_on, told, Goes};

use dis_blocks::{store_array, store_channel, store_part, store_record};
use dis_file::TypeDesc;
use dis_places::{Halt, Memory, Process, Raise, Ref, Spot};
use dis_results::{advance, give_reference};
use std::alloc::Global;

/// The process comes to its next instruction where all went well.
pub fn go_on(process: &mut Process, outcome: Result<(), Halt>) -> Result<(), Halt>
    requires { process.old.frame.pc + 1 < 2 ^ 64 }
    ensures same { result ≡ outcome }
    ensures on { OnOk outcome (view_process process.new ≡ moved_on (view_process process.old)) }
    ensures kept { OnErr outcome (process.new ≡ process.old) }
{
    match outcome {
        Ok(()) => {
            advance(process);
            Ok(())
        }
        Err(halt) => Err(halt),
    }
}

/// Makes a record of a type, whose numbers are 0 and whose references name nothing, and stores a reference to it.
///
/// # Errors
/// The fault that the definition has, or want of memory; then nothing has changed.
pub fn give_record(
    alloc: Global,
    memory: &mut Memory,
    process: &mut Process,
    spot: Spot,
    desc: &TypeDesc,
) -> Result<(), Halt>
    requires place { process.old.frame.pc + 1 < 2 ^ 64 }
    requires held { AreHeld memory.old.heap (names (view_process process.old)) }
    ensures goes { Goes memory.old process.old result
        (gives_block_at (view_world memory.old) (view_process process.old) (view_spot spot)
        (words.Found (blocks.Record (words.blank desc.now))))
        memory.new process.new }
    ensures kept { OnErr result ((memory.new ≡ memory.old) × (process.new ≡ process.old)) }
{
    let outcome = store_record(alloc, memory, process, spot, desc);
    go_on(process, outcome)
}

/// Makes an array of so many elements of the type of this number, whose numbers are 0 and whose references name nothing, and stores a
/// reference to it; or raises what is wrong with its length.
///
/// # Errors
/// The fault that the definition has, what it raises, or want of memory; then nothing has changed.
pub fn give_array(
    alloc: Global,
    memory: &mut Memory,
    process: &mut Process,
    spot: Spot,
    element: u32,
    length: Result<u32, Raise>,
) -> Result<(), Halt>
    requires place { process.old.frame.pc + 1 < 2 ^ 64 }
    requires small { IfOk length (λ n. blocks.bytes_for (type_by memory.old.tables element) n ≤ blocks.most_bytes) }
    requires held { AreHeld memory.old.heap (names (view_process process.old)) }
    ensures goes { Goes memory.old process.old result
        (gives_block_at (view_world memory.old) (view_process process.old) (view_spot spot)
        (told (blocks.blank_array (type_by memory.old.tables element)) length))
        memory.new process.new }
    ensures kept { OnErr result ((memory.new ≡ memory.old) × (process.new ≡ process.old)) }
{
    match length {
        Ok(long) => {
            let outcome = store_array(alloc, memory, process, spot, element, long);
            go_on(process, outcome)
        }
        Err(raise) => give_reference(memory, process, spot, Err(raise)),
    }
}

/// Makes part of an array, so many elements from one on, and stores a reference to it.
///
/// # Errors
/// The fault that the definition has, or want of memory; then nothing has changed.
pub fn give_part(
    memory: &mut Memory,
    process: &mut Process,
    spot: Spot,
    array: Ref,
    from: u32,
    long: u32,
) -> Result<(), Halt>
    requires place { process.old.frame.pc + 1 < 2 ^ 64 }
    requires live { IsLive memory.old.heap array.serial }
    requires held { AreHeld memory.old.heap (names (view_process process.old)) }
    ensures goes { Goes memory.old process.old result
        (gives_block_at (view_world memory.old) (view_process process.old) (view_spot spot)
        (words.Found (blocks.Part array.serial from long)))
        memory.new process.new }
    ensures kept { OnErr result ((memory.new ≡ memory.old) × (process.new ≡ process.old)) }
{
    let outcome = store_part(memory, process, spot, array, from, long);
    go_on(process, outcome)
}

/// Makes a channel for elements of the type of this number, and stores a reference to it.
///
/// # Errors
/// The fault that the definition has, or want of memory; then nothing has changed.
pub fn give_channel(
    alloc: Global,
    memory: &mut Memory,
    process: &mut Process,
    spot: Spot,
    element: u32,
) -> Result<(), Halt>
    requires place { process.old.frame.pc + 1 < 2 ^ 64 }
    requires held { AreHeld memory.old.heap (names (view_process process.old)) }
    ensures goes { Goes memory.old process.old result
        (gives_block_at (view_world memory.old) (view_process process.old) (view_spot spot)
        (words.Found (blocks.Channel (type_by memory.old.tables element))))
        memory.new process.new }
    ensures kept { OnErr result ((memory.new ≡ memory.old) × (process.new ≡ process.old)) }
{
    let outcome = store_channel(alloc, memory, process, spot, element);
    go_on(process, outcome)
}
