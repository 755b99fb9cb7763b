//! Words of a block that go over others.

ghost use Rattle.std.specs.Prelude.{◌≡◌, ℕ, ◌+◌, ◌<◌, ◌^◌, [], ◌∷◌, Some, false, IfErr, OnErr, OnOk};
ghost use Rattle.ref_heap.specs.Words.{cell_of, Cell, Content, MayTake};
ghost use Rattle.ref_heap.specs.Store.{AreHeld, Block, IsLive, at, outside};
ghost use Rattle.dis_meaning.specs.Words.{Found};
ghost use Rattle.dis_copies.specs.Changes.{Changed, TakesAll, TakesAllNow};
ghost use Rattle.dis_copies.specs.Spans.{all_named, kinds, meets, over};
ghost use Rattle.dis_places.specs.declared.fault.Halt.TheVariants as halt;
ghost use Rattle.dis_places.specs.Regions.{block_words};
ghost use Rattle.dis_places.specs.Words.{view_word, view_words};
ghost use Rattle.dis_stores.specs.Exchanging.{Exchanged};
ghost use Rattle.dis_stores.specs.Storing.{named};

use dis_places::{Halt, Ref, Word};
use ref_heap::Heap;

fn is_address(word: Word) -> bool
    ensures { result ≡ false → (c : Content) → MayTake c (cell_of word) }
{
    match word {
        Word::Address { .. } => true,
        Word::Plain(_) => false,
        Word::Refer(_) => false,
    }
}

// Whether one of these words is an address.
fn any_address(words: &[Word]) -> bool
    ensures { result ≡ false → (c : Content) → TakesAll c words.now }
{
    for k in 0..words.len() {
        if is_address(words[k]) {
            return true;
        }
    }
    false
}

// A block takes an address only where it is kept in words.
fn make_room(heap: &mut Heap, block: Ref, words: &[Word]) -> Result<(), Halt>
    requires { IsLive heap.old block.serial }
    ensures takes { OnOk result (TakesAllNow heap.old heap.new block.serial words.now) }
    ensures fault { IfErr result (λ h. h ≡ halt.NoMemory) }
    ensures kept { OnErr result (heap.new ≡ heap.old) }
{
    heap.stands();
    if !any_address(words) {
        return Ok(());
    }
    match heap.widen(block) {
        Ok(()) => Ok(()),
        Err(_) => Err(Halt::NoMemory),
    }
}

// Exchanges a word of a block with one of its kind.
fn exchange_word(heap: &mut Heap, block: Ref, k: usize, new: Word) -> Word
    requires live { IsLive heap.old block.serial }
    requires meets { meets (block_words (at heap.old block.serial)) k (view_word new ∷ []) ≡ Found tt }
    requires takes { (b : Block) → at heap.old block.serial ≡ Some b → MayTake b.content (cell_of new) }
    requires held { AreHeld heap.old (named new) }
    ensures exchanged { Exchanged heap.old heap.new block.serial k new result }
    ensures takes { (b c : Block) → at heap.old block.serial ≡ Some b → at heap.new block.serial ≡ Some c
        → (d : Cell) → MayTake b.content d → MayTake c.content d }
{
    heap.stands();
    let was = match heap.get(block, k) {
        Ok(word) => word,
        Err(_) => unreachable!(),
    };
    match heap.set_word(block, k, new) {
        Ok(()) => was,
        Err(_) => unreachable!(),
    }
}

// Exchanges words with those of a block that takes them, from one on.
fn exchange_taken(heap: &mut Heap, block: Ref, from: usize, words: &mut [Word])
    requires small { from < 2 ^ 61 }
    requires live { IsLive heap.old block.serial }
    requires meets { meets (block_words (at heap.old block.serial)) from (view_words words.old) ≡ Found tt }
    requires takes { (b : Block) → at heap.old block.serial ≡ Some b → TakesAll b.content words.old }
    requires held { AreHeld heap.old (all_named words.old) }
    ensures changed { Changed heap.old heap.new block.serial
        (over (block_words (at heap.old block.serial)) from (view_words words.old)) }
    ensures outside { (n : ℕ) → outside heap.new n + all_named words.old n ≡ outside heap.old n + all_named words.new n }
    ensures kinds { kinds (view_words words.new) ≡ kinds (view_words words.old) }
{
    heap.stands();
    for k in 0..words.len() {
        words[k] = exchange_word(heap, block, from + k, words[k]);
    }
}

/// Exchanges words with those of a block, from one on, each of which meets one of its kind. The caller gives away the references in them,
/// and has those that stood there from then on.
///
/// # Errors
/// Want of memory; then nothing has changed.
pub(crate) fn exchange_block(
    heap: &mut Heap,
    block: Ref,
    from: usize,
    words: &mut [Word],
) -> Result<(), Halt>
    requires small { from < 2 ^ 61 }
    requires live { IsLive heap.old block.serial }
    requires meets { meets (block_words (at heap.old block.serial)) from (view_words words.old) ≡ Found tt }
    requires held { AreHeld heap.old (all_named words.old) }
    ensures changed { OnOk result (Changed heap.old heap.new block.serial
        (over (block_words (at heap.old block.serial)) from (view_words words.old))) }
    ensures outside { OnOk result
        ((n : ℕ) → outside heap.new n + all_named words.old n ≡ outside heap.old n + all_named words.new n) }
    ensures kinds { kinds (view_words words.new) ≡ kinds (view_words words.old) }
    ensures fault { IfErr result (λ h. h ≡ halt.NoMemory) }
    ensures kept { OnErr result ((heap.new ≡ heap.old) × (words.new ≡ words.old)) }
{
    match make_room(heap, block, words) {
        Ok(()) => {
            exchange_taken(heap, block, from, words);
            Ok(())
        }
        Err(halt) => Err(halt),
    }
}
