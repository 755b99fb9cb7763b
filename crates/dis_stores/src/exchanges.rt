//! Words of blocks that take the place of others.

ghost use Rattle.std.specs.Prelude.{◌≡◌, Some, false, IfOk, IfErr, IsOk, OnErr};
ghost use Rattle.ref_heap.specs.Words.{cell_of};
ghost use Rattle.ref_heap.specs.Store.{AreHeld, Block, IsLive, at};
ghost use Rattle.dis_meaning.specs.Words as words;
ghost use Rattle.dis_places.specs.declared.fault.Halt.TheVariants as halt;
ghost use Rattle.dis_places.specs.Blocks.{words_of};
ghost use Rattle.dis_places.specs.Words.{view_word, Halts};
ghost use Rattle.dis_stores.specs.Exchanging.{Exchanged, TakesNow};
ghost use Rattle.dis_stores.specs.Storing.{is_address, named, IsNoMemory};

use crate::puts::fits;
use dis_places::{Fault, Halt, Ref, Word};
use ref_heap::Heap;

// A block takes an address only where it is kept in words.
fn make_room(heap: &mut Heap, block: Ref, new: Word) -> Result<(), Halt>
    requires { IsLive heap.old block.serial }
    ensures takes { IfOk result (λ _. TakesNow heap.old heap.new block.serial (cell_of new)) }
    ensures fault { IfErr result (λ h. h ≡ halt.NoMemory) }
    ensures sure { is_address (cell_of new) ≡ false → IsOk result }
    ensures kept { OnErr result (heap.new ≡ heap.old) }
{
    heap.stands();
    match new {
        Word::Address { .. } => match heap.widen(block) {
            Ok(()) => Ok(()),
            Err(_) => Err(Halt::NoMemory),
        },
        Word::Plain(_) => Ok(()),
        Word::Refer(_) => Ok(()),
    }
}

/// Replaces a word of a block by one of its kind, and gives back what stood there. The caller gives away the reference in the new word,
/// and has the one in the old word from then on.
pub(crate) fn exchange(heap: &mut Heap, block: Ref, k: usize, new: Word) -> Result<Word, Halt>
    requires live { IsLive heap.old block.serial }
    requires held { AreHeld heap.old (named new) }
    ensures exchanged { IfOk result (λ was. Exchanged heap.old heap.new block.serial k new was) }
    ensures fault { (b : Block) → at heap.old block.serial ≡ Some b
        → IfErr result (λ h. Halts h (words.replaced (words_of b.content) k (view_word new))) }
    ensures sure { is_address (cell_of new) ≡ false → IfErr result (λ h. IsNoMemory h → ⊥) }
    ensures kept { OnErr result (heap.new ≡ heap.old) }
{
    heap.stands();
    let was = match heap.get(block, k) {
        Ok(word) => word,
        Err(_) => return Err(Halt::Fault(Fault::TypeCheck)),
    };
    if !fits(was, new) {
        return Err(Halt::Fault(Fault::TypeCheck));
    }
    make_room(heap, block, new)?;
    match heap.set_word(block, k, new) {
        Ok(()) => Ok(was),
        Err(_) => unreachable!(),
    }
}
