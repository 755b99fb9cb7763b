//! Blocks that are made.

ghost use Rattle.std.specs.Prelude.{◌≡◌, ℕ, ◌+◌, None, true, OnErr};
ghost use Rattle.ref_heap.specs.Kinds.{fd_number};
ghost use Rattle.ref_heap.specs.Words.{cell_of, cells, is_reference, naming};
ghost use Rattle.ref_heap.specs.Store.{AreHeld};
ghost use Rattle.dis_meaning.specs.Words.{Found};
ghost use Rattle.dis_memory.specs.Naming.{names};
ghost use Rattle.dis_memory.specs.Places as places;
ghost use Rattle.dis_places.specs.Blocks.{block_by, is_proper};
ghost use Rattle.dis_places.specs.View.{view_process, view_spot, view_world};
ghost use Rattle.dis_places.specs.Words.{view_word};
ghost use Rattle.dis_blocks.specs.Making.{made, Makes};

use dis_places::{Fault, Halt, Memory, Process, Spot, Word, read};
use dis_stores::put;
use ref_heap::{Kind, Words};

// Makes a block, and stores a reference to it where one stands.
fn make(
    memory: &mut Memory,
    process: &mut Process,
    spot: Spot,
    old: Word,
    kind: Kind,
    words: Words,
) -> Result<(), Halt>
    requires there { places.read (view_world memory.old) (view_process process.old) (view_spot spot) ≡ Found (view_word old) }
    requires stands { is_reference (cell_of old) ≡ true }
    requires no_file { fd_number kind ≡ None }
    requires proper { is_proper kind words ≡ true }
    requires held { AreHeld memory.old.heap (λ n. names (view_process process.old) n + naming (cells words) n) }
    ensures makes { Makes (naming (cells words)) memory.old process.old result
        (made (view_world memory.old) (view_process process.old) (view_spot spot) (block_by memory.old.tables kind words))
        memory.new process.new }
    ensures place { process.new.frame.pc ≡ process.old.frame.pc }
    ensures kept { OnErr result ((memory.new ≡ memory.old) × (process.new ≡ process.old)) }
{
    memory.heap.stands();
    let block = match memory.heap.add(kind, words) {
        Ok(block) => block,
        Err(_) => return Err(Halt::NoMemory),
    };
    match put(memory, process, spot, Word::Refer(Some(block))) {
        Ok(was) => {
            memory.heap.stands();
            memory.heap.drop_words(&[was]);
            Ok(())
        }
        Err(_) => unreachable!(),
    }
}

/// Makes a block of these words, whose references the caller gives away, and stores a reference to it where one stands; that one is let
/// go.
///
/// # Errors
/// The fault that the definition has, or want of memory; then nothing has changed.
pub fn store_new(
    memory: &mut Memory,
    process: &mut Process,
    spot: Spot,
    kind: Kind,
    words: Words,
) -> Result<(), Halt>
    requires no_file { fd_number kind ≡ None }
    requires proper { is_proper kind words ≡ true }
    requires held { AreHeld memory.old.heap (λ n. names (view_process process.old) n + naming (cells words) n) }
    ensures makes { Makes (naming (cells words)) memory.old process.old result
        (made (view_world memory.old) (view_process process.old) (view_spot spot) (block_by memory.old.tables kind words))
        memory.new process.new }
    ensures place { process.new.frame.pc ≡ process.old.frame.pc }
    ensures kept { OnErr result ((memory.new ≡ memory.old) × (process.new ≡ process.old)) }
{
    match read(memory, process, spot) {
        Ok(old) => {
            if old.is_reference() {
                make(memory, process, spot, old, kind, words)
            } else {
                Err(Halt::Fault(Fault::TypeCheck))
            }
        }
        Err(fault) => Err(Halt::Fault(fault)),
    }
}
