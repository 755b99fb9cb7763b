//! Cells of lists.

ghost use Rattle.std.specs.Prelude.{◌≡◌, ◌∷◌, IfOk, IfSome, OnErr};
ghost use Rattle.std.specs.Option.{option_map};
ghost use Rattle.ref_heap.specs.declared.word.Ref.{Ref as CodeRef};
ghost use Rattle.ref_heap.specs.declared.word.Word.TheVariants as word;
ghost use Rattle.ref_heap.specs.Store.{AreHeld, IsLive};
ghost use Rattle.dis_memory.specs.Blocks as blocks;
ghost use Rattle.dis_memory.specs.Naming.{names};
ghost use Rattle.dis_blocks.specs.Making.{made, Untouched};
ghost use Rattle.dis_copies.specs.Spans.{AreLive};
ghost use Rattle.dis_places.specs.View.{view_process, view_spot, view_world};
ghost use Rattle.dis_places.specs.Words.{view_words};
ghost use Rattle.dis_stores.specs.Storing.{Stores};

use dis_blocks::store_new;
use dis_copies::hold_words;
use dis_places::{Halt, Memory, Process, Ref, Spot, Word};
use dis_stores::hold;
use ref_heap::{Kind, Words};
use std::alloc::{AllocError, Global};

// The words of a cell: the reference to its rest, and those of its element.
fn cell_words(alloc: Global, rest: Option<Ref>, element: &[Word]) -> Result<Vec<Word>, AllocError>
    ensures { IfOk result (λ words. words.items ≡ word.Refer rest ∷ element.now) }
{
    let mut words = Vec::with_capacity(alloc, element.len() + 1)?;
    words.push(Word::Refer(rest))?;
    words.extend_from_slice(element)?;
    Ok(words)
}

// Makes a cell of these words, and stores a reference to it where one stands.
fn store_linked(
    memory: &mut Memory,
    process: &mut Process,
    spot: Spot,
    rest: Option<Ref>,
    element: &[Word],
    words: Vec<Word>,
) -> Result<(), Halt>
    requires words { words.items ≡ word.Refer rest ∷ element.now }
    requires rest { IfSome rest (λ r. IsLive memory.old.heap r.serial) }
    requires element { AreLive memory.old.heap element.now }
    requires held { AreHeld memory.old.heap (names (view_process process.old)) }
    ensures stores { Stores memory.old process.old result
        (made (view_world memory.old) (view_process process.old) (view_spot spot)
        (blocks.Cell (view_words element.now) (option_map (λ (r : CodeRef). r.serial) rest)))
        memory.new process.new }
    ensures place { process.new.frame.pc ≡ process.old.frame.pc }
    ensures kept { OnErr result (Untouched memory.old process.old memory.new process.new) }
{
    memory.heap.stands();
    match hold(&mut memory.heap, rest) {
        Ok(()) => {}
        Err(halt) => return Err(halt),
    }
    memory.heap.stands();
    match hold_words(&mut memory.heap, element) {
        Ok(()) => {}
        Err(halt) => {
            memory.heap.stands();
            memory.heap.drop_words(&[Word::Refer(rest)]);
            return Err(halt);
        }
    }
    match store_new(memory, process, spot, Kind::Cell, Words::wide(words)) {
        Ok(()) => Ok(()),
        Err(halt) => {
            memory.heap.stands();
            memory.heap.drop_words(element);
            memory.heap.stands();
            memory.heap.drop_words(&[Word::Refer(rest)]);
            Err(halt)
        }
    }
}

/// Makes a cell of a list with this rest and an element of these words, and stores a reference to it where one stands. The rest and each
/// block that the element refers to have a reference more.
///
/// # Errors
/// The fault that the definition has, or want of memory; then memory is as it was.
pub(crate) fn store_cell(
    alloc: Global,
    memory: &mut Memory,
    process: &mut Process,
    spot: Spot,
    rest: Option<Ref>,
    element: &[Word],
) -> Result<(), Halt>
    requires rest { IfSome rest (λ r. IsLive memory.old.heap r.serial) }
    requires element { AreLive memory.old.heap element.now }
    requires held { AreHeld memory.old.heap (names (view_process process.old)) }
    ensures stores { Stores memory.old process.old result
        (made (view_world memory.old) (view_process process.old) (view_spot spot)
        (blocks.Cell (view_words element.now) (option_map (λ (r : CodeRef). r.serial) rest)))
        memory.new process.new }
    ensures place { process.new.frame.pc ≡ process.old.frame.pc }
    ensures kept { OnErr result (Untouched memory.old process.old memory.new process.new) }
{
    match cell_words(alloc, rest, element) {
        Ok(words) => store_linked(memory, process, spot, rest, element, words),
        Err(_) => Err(Halt::NoMemory),
    }
}
