//! Frames that go, with all that they refer to.

ghost use Rattle.std.specs.Prelude.{◌≡◌, ℕ, ◌+◌};
ghost use Rattle.heap_model.specs.Heap.{stays};
ghost use Rattle.ref_heap.specs.Store.{AreHeld, outside};
ghost use Rattle.dis_meaning.specs.Counts.{in_frame};
ghost use Rattle.dis_memory.specs.Naming.{inside};
ghost use Rattle.dis_places.specs.declared.memory.Tables.{Tables};
ghost use Rattle.dis_places.specs.Blocks.{view_heap, AreProper};
ghost use Rattle.dis_places.specs.Frames.{view_frame};

use dis_places::{Frame, Word};
use ref_heap::Heap;

/// Lets go of all that a frame refers to, its instance among it: what nobody names then is gone.
pub fn let_go(heap: &mut Heap, frame: &Frame)
    requires held { AreHeld heap.old (λ n. in_frame n (view_frame frame.now)) }
    requires proper { AreProper heap.old }
    ensures held { (n : ℕ) → outside heap.new n + in_frame n (view_frame frame.now) ≡ outside heap.old n }
    ensures blocks { (t : Tables) → view_heap t heap.new ≡ stays inside (outside heap.new) (view_heap t heap.old) }
    ensures proper { AreProper heap.new }
{
    heap.stands();
    heap.drop_words(&frame.words);
    heap.stands();
    heap.drop_words(&[Word::Refer(Some(frame.instance))]);
}
