//! Frames that are made, and go.

ghost use Rattle.std.specs.Prelude.{◌≡◌, ℕ, ◌≤◌};
ghost use Rattle.ref_heap.specs.Store.{AreHeld, outside};
ghost use Rattle.dis_memory.specs.Naming.{names};
ghost use Rattle.dis_places.specs.View.{view_place, view_process, view_world};
ghost use Rattle.dis_stores.specs.Storing.{Settles};
ghost use Rattle.dis_prints.specs.Discarded.{discarded, is_frame};

use dis_calls::let_go;
use dis_places::{Memory, Place, Process, position};

/// Whether a place is the frame of this serial.
pub(crate) fn is_frame(place: Place, serial: u64) -> bool
    ensures { result ≡ is_frame (view_place place) serial }
{
    match place {
        Place::Frame(other) => other == serial,
        Place::Block(_) => false,
    }
}

/// The frame of this serial goes, where it is made, with all that it refers to. What the process printed is answered no more.
pub(crate) fn discard(memory: &mut Memory, process: &mut Process, serial: u64)
    requires held { AreHeld memory.old.heap (names (view_process process.old)) }
    ensures gone { view_process process.new ≡ discarded (view_process process.old) serial }
    ensures settles { Settles memory.old process.old (view_world memory.old) memory.new process.new }
    ensures less { (n : ℕ) → outside memory.new.heap n ≤ outside memory.old.heap n }
    ensures place { process.new.frame.pc ≡ process.old.frame.pc }
{
    memory.heap.stands();
    match position(&process.made, serial) {
        Some(k) => {
            let frame = process.made.remove(k);
            process.printing = None;
            let_go(&mut memory.heap, &frame);
        }
        None => process.printing = None,
    }
}
