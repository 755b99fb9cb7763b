//! Cells of lists.

ghost use Rattle.std.specs.Prelude.{◌≡◌, ℕ, List, ◌∷◌, map, IfSome, OnErr};
ghost use Rattle.ref_heap.specs.declared.kind.Kind.TheVariants as kind;
ghost use Rattle.ref_heap.specs.declared.word.Word.TheVariants as word;
ghost use Rattle.ref_heap.specs.Words.{Cell, cell_of, naming, wide};
ghost use Rattle.ref_heap.specs.Store.{AreHeld, IsLive};
ghost use Rattle.dis_memory.specs.Naming.{names};
ghost use Rattle.dis_places.specs.Blocks.{block_by};
ghost use Rattle.dis_places.specs.View.{view_process, view_spot, view_world};
ghost use Rattle.dis_stores.specs.Storing.{Stores};
ghost use Rattle.dis_blocks.specs.Making.{made, Untouched};

use crate::making::store_new;
use dis_places::{Halt, Memory, Process, Ref, Spot, Word};
use dis_stores::hold;
use ref_heap::{Kind, Words};

/// Makes a cell of a list, whose words are the reference to its rest and those of an element that refers to nothing, and stores a
/// reference to it where one stands. The rest has a reference more.
///
/// # Errors
/// The fault that the definition has, or want of memory; then memory is as it was.
pub fn store_cell(
    memory: &mut Memory,
    process: &mut Process,
    spot: Spot,
    rest: Option<Ref>,
    words: Vec<Word>,
) -> Result<(), Halt>
    requires begins { (element : List Cell) × (map cell_of words.items ≡ cell_of (word.Refer rest) ∷ element)
        × ((n : ℕ) → naming element n ≡ 0) }
    requires live { IfSome rest (λ r. IsLive memory.old.heap r.serial) }
    requires held { AreHeld memory.old.heap (names (view_process process.old)) }
    ensures stores { Stores memory.old process.old result
        (made (view_world memory.old) (view_process process.old) (view_spot spot)
        (block_by memory.old.tables kind.Cell (wide (map cell_of words.items))))
        memory.new process.new }
    ensures place { process.new.frame.pc ≡ process.old.frame.pc }
    ensures kept { OnErr result (Untouched memory.old process.old memory.new process.new) }
{
    memory.heap.stands();
    match hold(&mut memory.heap, rest) {
        Ok(()) => {}
        Err(halt) => return Err(halt),
    }
    match store_new(memory, process, spot, Kind::Cell, Words::wide(words)) {
        Ok(()) => Ok(()),
        Err(halt) => {
            memory.heap.stands();
            memory.heap.drop_words(&[Word::Refer(rest)]);
            Err(halt)
        }
    }
}
