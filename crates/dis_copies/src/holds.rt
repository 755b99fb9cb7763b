//! References of many words.

ghost use Rattle.std.specs.Prelude.{◌≡◌, ℕ, ◌+◌, IfErr, OnErr, OnOk};
ghost use Rattle.ref_heap.specs.Store.{outside};
ghost use Rattle.dis_places.specs.declared.fault.Halt.TheVariants as halt;
ghost use Rattle.dis_copies.specs.Spans.{all_named, AreLive};
ghost use Rattle.dis_stores.specs.Storing.{SameShapes};

use dis_places::{Halt, Word};
use dis_stores::hold;
use ref_heap::Heap;

/// One more reference to each block that one of these words refers to, as often as they do.
///
/// # Errors
/// Want of memory: no block has as many references as there may be. Then the blocks are as before.
pub fn hold_words(heap: &mut Heap, words: &[Word]) -> Result<(), Halt>
    requires { AreLive heap.old words.now }
    ensures same { SameShapes heap.old heap.new }
    ensures outside { OnOk result ((n : ℕ) → outside heap.new n ≡ outside heap.old n + all_named words.now n) }
    ensures back { OnErr result ((n : ℕ) → outside heap.new n ≡ outside heap.old n) }
    ensures fault { IfErr result (λ h. h ≡ halt.NoMemory) }
{
    heap.stands();
    for k in 0..words.len() {
        match hold(heap, words[k].reference()) {
            Ok(()) => {}
            Err(halt) => {
                heap.stands();
                heap.drop_words(&words[..k]);
                heap.stands();
                return Err(halt);
            }
        }
    }
    Ok(())
}
