//! A process that ends lets go of all that it refers to.

ghost use Rattle.std.specs.Prelude.{◌≡◌, ℕ, ◌+◌};
ghost use Rattle.heap_model.specs.Heap.{stays};
ghost use Rattle.ref_heap.specs.Store.{AreHeld, outside};
ghost use Rattle.dis_meaning.specs.Counts.{in_frames};
ghost use Rattle.dis_memory.specs.Naming.{inside, names};
ghost use Rattle.dis_places.specs.declared.memory.Tables.{Tables};
ghost use Rattle.dis_places.specs.Blocks.{view_heap, AreProper};
ghost use Rattle.dis_places.specs.Frames.{view_frames};
ghost use Rattle.dis_places.specs.View.{view_process, view_world};
ghost use Rattle.dis_steps.specs.Ending.{LetsGo};

use dis_calls::let_go;
use dis_places::{Frame, Memory, Process};
use ref_heap::Heap;

// Lets go of all that frames refer to: what nobody names then is gone.
fn let_go_all(heap: &mut Heap, frames: &[Frame])
    requires held { AreHeld heap.old (λ n. in_frames n (view_frames frames.now)) }
    requires proper { AreProper heap.old }
    ensures held { (n : ℕ) → outside heap.new n + in_frames n (view_frames frames.now) ≡ outside heap.old n }
    ensures blocks { (t : Tables) → view_heap t heap.new ≡ stays inside (outside heap.new) (view_heap t heap.old) }
    ensures proper { AreProper heap.new }
{
    heap.stands();
    let mut rest = frames;
    while let Some((frame, behind)) = rest.split_first() {
        let_go(heap, frame);
        rest = behind;
    }
}

/// A process that is over lets go of all that its frames refer to, also those that wait and those that are made; of blocks that nobody
/// names then nothing is left.
pub fn end(memory: &mut Memory, process: &Process)
    requires held { AreHeld memory.old.heap (names (view_process process.now)) }
    ensures { LetsGo memory.old process.now (view_world memory.old) memory.new }
{
    let_go(&mut memory.heap, &process.frame);
    let_go_all(&mut memory.heap, &process.below);
    let_go_all(&mut memory.heap, &process.made);
}
