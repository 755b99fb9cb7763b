//! Parts of arrays, and channels.

ghost use Rattle.std.specs.Prelude.{◌≡◌, true, OnErr};
ghost use Rattle.ref_heap.specs.Words.{cell_of, is_reference};
ghost use Rattle.ref_heap.specs.Store.{AreHeld, IsLive};
ghost use Rattle.dis_meaning.specs.Words.{Found};
ghost use Rattle.dis_memory.specs.Blocks as blocks;
ghost use Rattle.dis_memory.specs.Naming.{names};
ghost use Rattle.dis_memory.specs.Places as places;
ghost use Rattle.dis_places.specs.Blocks.{type_by};
ghost use Rattle.dis_places.specs.View.{view_process, view_spot, view_world};
ghost use Rattle.dis_places.specs.Words.{view_word};
ghost use Rattle.dis_stores.specs.Storing.{Stores};
ghost use Rattle.dis_blocks.specs.Making.{made};

use crate::making::store_new;
use dis_places::{Fault, Halt, Memory, Process, Ref, Spot, Word, read};
use dis_stores::put;
use ref_heap::{Kind, Words};
use std::alloc::Global;

// Makes part of an array, and stores a reference to it where one stands.
fn make_part(
    memory: &mut Memory,
    process: &mut Process,
    spot: Spot,
    old: Word,
    array: Ref,
    from: u32,
    long: u32,
) -> Result<(), Halt>
    requires there { places.read (view_world memory.old) (view_process process.old) (view_spot spot) ≡ Found (view_word old) }
    requires stands { is_reference (cell_of old) ≡ true }
    requires live { IsLive memory.old.heap array.serial }
    requires held { AreHeld memory.old.heap (names (view_process process.old)) }
    ensures stores { Stores memory.old process.old result
        (made (view_world memory.old) (view_process process.old) (view_spot spot) (blocks.Part array.serial from long))
        memory.new process.new }
    ensures place { process.new.frame.pc ≡ process.old.frame.pc }
    ensures kept { OnErr result ((memory.new ≡ memory.old) × (process.new ≡ process.old)) }
{
    let kind = Kind::Slice { from, length: long };
    let part = match memory.heap.add_ref(kind, array) {
        Ok(part) => part,
        Err(_) => return Err(Halt::NoMemory),
    };
    match put(memory, process, spot, Word::Refer(Some(part))) {
        Ok(was) => {
            memory.heap.stands();
            memory.heap.drop_words(&[was]);
            Ok(())
        }
        Err(_) => unreachable!(),
    }
}

/// Makes part of an array, so many elements from one on, and stores a reference to it where one stands. The array has a reference more.
///
/// # Errors
/// The fault that the definition has, or want of memory; then nothing has changed.
pub fn store_part(
    memory: &mut Memory,
    process: &mut Process,
    spot: Spot,
    array: Ref,
    from: u32,
    long: u32,
) -> Result<(), Halt>
    requires live { IsLive memory.old.heap array.serial }
    requires held { AreHeld memory.old.heap (names (view_process process.old)) }
    ensures stores { Stores memory.old process.old result
        (made (view_world memory.old) (view_process process.old) (view_spot spot) (blocks.Part array.serial from long))
        memory.new process.new }
    ensures place { process.new.frame.pc ≡ process.old.frame.pc }
    ensures kept { OnErr result ((memory.new ≡ memory.old) × (process.new ≡ process.old)) }
{
    match read(memory, process, spot) {
        Ok(old) => {
            if old.is_reference() {
                make_part(memory, process, spot, old, array, from, long)
            } else {
                Err(Halt::Fault(Fault::TypeCheck))
            }
        }
        Err(fault) => Err(Halt::Fault(fault)),
    }
}

/// Makes a channel for elements of the type of this number, and stores a reference to it where one stands.
///
/// # Errors
/// The fault that the definition has, or want of memory; then nothing has changed.
pub fn store_channel(
    alloc: Global,
    memory: &mut Memory,
    process: &mut Process,
    spot: Spot,
    element: u32,
) -> Result<(), Halt>
    requires held { AreHeld memory.old.heap (names (view_process process.old)) }
    ensures stores { Stores memory.old process.old result
        (made (view_world memory.old) (view_process process.old) (view_spot spot)
        (blocks.Channel (type_by memory.old.tables element)))
        memory.new process.new }
    ensures place { process.new.frame.pc ≡ process.old.frame.pc }
    ensures kept { OnErr result ((memory.new ≡ memory.old) × (process.new ≡ process.old)) }
{
    let words = Words::compact(Vec::new(alloc));
    store_new(memory, process, spot, Kind::Channel { element }, words)
}
