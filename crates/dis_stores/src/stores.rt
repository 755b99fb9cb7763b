//! Words that are stored, and what is let go by it.

ghost use Rattle.std.specs.Prelude.{◌≡◌, ℕ, ◌+◌, true, false, IfErr, IfSome, OnErr, OnOk};
ghost use Rattle.ref_heap.specs.Words.{cell_of, is_reference};
ghost use Rattle.ref_heap.specs.declared.word.Word.TheVariants as word;
ghost use Rattle.ref_heap.specs.Store.{AreHeld, IsLive, outside};
ghost use Rattle.dis_meaning.specs.Words.{Found};
ghost use Rattle.dis_memory.specs.Naming.{names};
ghost use Rattle.dis_memory.specs.Places as places;
ghost use Rattle.dis_memory.specs.Places.{store};
ghost use Rattle.dis_places.specs.declared.fault.Halt.TheVariants as halt;
ghost use Rattle.dis_places.specs.View.{view_process, view_spot, view_world};
ghost use Rattle.dis_places.specs.Words.{view_word};
ghost use Rattle.dis_stores.specs.Storing.{named, rested, SameShapes, Stores};

use crate::puts::put;
use dis_places::{Fault, Halt, Memory, Process, Ref, Spot, Word, read};
use ref_heap::Heap;

/// Stores a word that is no reference, where one of its kind stands.
///
/// # Errors
/// The fault that the definition has, or want of memory; then nothing has changed.
#[inline(always)]
pub fn store_plain(
    memory: &mut Memory,
    process: &mut Process,
    spot: Spot,
    new: Word,
) -> Result<(), Halt>
    requires plain { is_reference (cell_of new) ≡ false }
    ensures stores { Stores memory.old process.old result
        (rested (store (view_world memory.old) (view_process process.old) (view_spot spot) (view_word new))) memory.new process.new }
    ensures place { process.new.frame.pc ≡ process.old.frame.pc }
    ensures kept { OnErr result ((memory.new ≡ memory.old) × (process.new ≡ process.old)) }
{
    match put(memory, process, spot, new) {
        Ok(_) => {
            memory.heap.stands();
            Ok(())
        }
        Err(halt) => Err(halt),
    }
}

/// One more reference to a block, if it is one.
///
/// # Errors
/// Want of memory: no block has as many references as there may be. Then the heap is as before.
pub fn hold(heap: &mut Heap, new: Option<Ref>) -> Result<(), Halt>
    requires { IfSome new (λ r. IsLive heap.old r.serial) }
    ensures same { OnOk result (SameShapes heap.old heap.new) }
    ensures outside { OnOk result ((n : ℕ) → outside heap.new n ≡ outside heap.old n + named (word.Refer new) n) }
    ensures fault { IfErr result (λ h. h ≡ halt.NoMemory) }
    ensures kept { OnErr result (heap.new ≡ heap.old) }
{
    match new {
        Some(block) => match heap.hold(block) {
            Ok(()) => Ok(()),
            Err(_) => Err(Halt::NoMemory),
        },
        None => Ok(()),
    }
}

// Stores a reference where one stands, and lets go of that.
fn replace_reference(
    memory: &mut Memory,
    process: &mut Process,
    spot: Spot,
    old: Word,
    new: Option<Ref>,
) -> Result<(), Halt>
    requires there { places.read (view_world memory.old) (view_process process.old) (view_spot spot) ≡ Found (view_word old) }
    requires stands { is_reference (cell_of old) ≡ true }
    requires live { IfSome new (λ r. IsLive memory.old.heap r.serial) }
    requires held { AreHeld memory.old.heap (names (view_process process.old)) }
    ensures stores { Stores memory.old process.old result
        (rested (store (view_world memory.old) (view_process process.old) (view_spot spot) (view_word (word.Refer new))))
        memory.new process.new }
    ensures place { process.new.frame.pc ≡ process.old.frame.pc }
    ensures kept { OnErr result ((memory.new ≡ memory.old) × (process.new ≡ process.old)) }
{
    match hold(&mut memory.heap, new) {
        Ok(()) => {}
        Err(halt) => return Err(halt),
    }
    match put(memory, process, spot, Word::Refer(new)) {
        Ok(was) => {
            memory.heap.stands();
            memory.heap.drop_words(&[was]);
            Ok(())
        }
        Err(_) => unreachable!(),
    }
}

/// Stores a reference where one stands: it is held, and the one that stood there is let go, and with it all blocks that nothing names then.
///
/// # Errors
/// The fault that the definition has, or want of memory; then nothing has changed.
pub fn store_reference(
    memory: &mut Memory,
    process: &mut Process,
    spot: Spot,
    new: Option<Ref>,
) -> Result<(), Halt>
    requires live { IfSome new (λ r. IsLive memory.old.heap r.serial) }
    requires held { AreHeld memory.old.heap (names (view_process process.old)) }
    ensures stores { Stores memory.old process.old result
        (rested (store (view_world memory.old) (view_process process.old) (view_spot spot) (view_word (word.Refer new))))
        memory.new process.new }
    ensures place { process.new.frame.pc ≡ process.old.frame.pc }
    ensures kept { OnErr result ((memory.new ≡ memory.old) × (process.new ≡ process.old)) }
{
    match read(memory, process, spot) {
        Ok(old) => {
            if old.is_reference() {
                replace_reference(memory, process, spot, old, new)
            } else {
                Err(Halt::Fault(Fault::TypeCheck))
            }
        }
        Err(fault) => Err(Halt::Fault(fault)),
    }
}
