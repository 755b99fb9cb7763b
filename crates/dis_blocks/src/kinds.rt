//! Blocks of the kinds that name nothing when they are made.

ghost use Rattle.std.specs.Prelude.{◌≡◌, OnErr};
ghost use Rattle.ref_heap.specs.Store.{AreHeld};
ghost use Rattle.dis_meaning.specs.Words.{blank};
ghost use Rattle.dis_memory.specs.Blocks as blocks;
ghost use Rattle.dis_memory.specs.Naming.{names};
ghost use Rattle.dis_places.specs.View.{view_process, view_spot, view_world};
ghost use Rattle.dis_stores.specs.Storing.{Stores};
ghost use Rattle.dis_blocks.specs.Making.{made};

use crate::making::store_new;
use dis_file::TypeDesc;
use dis_places::{Halt, Memory, Process, Spot, blank as blank_words};
use ref_heap::{Kind, Words};
use std::alloc::Global;

/// Makes a string of these characters, and stores a reference to it where one stands.
///
/// # Errors
/// The fault that the definition has, or want of memory; then nothing has changed.
pub fn store_text(
    memory: &mut Memory,
    process: &mut Process,
    spot: Spot,
    chars: Vec<u32>,
) -> Result<(), Halt>
    requires held { AreHeld memory.old.heap (names (view_process process.old)) }
    ensures stores { Stores memory.old process.old result
        (made (view_world memory.old) (view_process process.old) (view_spot spot) (blocks.Text chars.items)) memory.new process.new }
    ensures place { process.new.frame.pc ≡ process.old.frame.pc }
    ensures kept { OnErr result ((memory.new ≡ memory.old) × (process.new ≡ process.old)) }
{
    store_new(memory, process, spot, Kind::Text, Words::compact(chars))
}

/// Makes a record of a type, whose numbers are 0 and whose references name nothing, and stores a reference to it where one stands.
///
/// # Errors
/// The fault that the definition has, or want of memory; then nothing has changed.
pub fn store_record(
    alloc: Global,
    memory: &mut Memory,
    process: &mut Process,
    spot: Spot,
    desc: &TypeDesc,
) -> Result<(), Halt>
    requires held { AreHeld memory.old.heap (names (view_process process.old)) }
    ensures stores { Stores memory.old process.old result
        (made (view_world memory.old) (view_process process.old) (view_spot spot) (blocks.Record (blank desc.now)))
        memory.new process.new }
    ensures place { process.new.frame.pc ≡ process.old.frame.pc }
    ensures kept { OnErr result ((memory.new ≡ memory.old) × (process.new ≡ process.old)) }
{
    match blank_words(alloc, desc) {
        Ok(words) => store_new(memory, process, spot, Kind::Record, Words::wide(words)),
        Err(_) => Err(Halt::NoMemory),
    }
}
