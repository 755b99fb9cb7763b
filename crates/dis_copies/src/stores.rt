//! Words that are stored over others, and what is let go by it.

ghost use Rattle.std.specs.Prelude.{◌≡◌, ◌<◌, ◌^◌, true, OnErr};
ghost use Rattle.ref_heap.specs.Store.{AreHeld};
ghost use Rattle.dis_meaning.specs.Words.{Found};
ghost use Rattle.dis_memory.specs.Naming.{names};
ghost use Rattle.dis_blocks.specs.Making.{Untouched};
ghost use Rattle.dis_copies.specs.Spans.{meets_at, none_refers, put_at, AreLive};
ghost use Rattle.dis_places.specs.View.{view_process, view_spot, view_world};
ghost use Rattle.dis_places.specs.Words.{view_words, GivesFault};
ghost use Rattle.dis_stores.specs.Storing.{rested, Stores};

use crate::holds::hold_words;
use crate::places::exchange;
use crate::rows::meet;
use dis_places::{Fault, Halt, Memory, Process, Spot, Word, reach};

// Each of these words meets one of its kind in a place, from one on.
fn meet_there(
    memory: &Memory,
    process: &Process,
    spot: Spot,
    from: usize,
    words: &[Word],
) -> Result<(), Fault>
    requires { from < 2 ^ 61 }
    ensures { GivesFault (λ u. u) result
        (meets_at (view_world memory.now) (view_process process.now) (view_spot spot) from (view_words words.now)) }
{
    let region = reach(memory, process, spot)?;
    meet(memory, process, region, from, words)
}

/// Stores words that are no references over those of a place, from one on. The words that stood there are the caller's then.
///
/// # Errors
/// The fault that the definition has, or want of memory; then nothing has changed.
pub fn store_plain_words(
    memory: &mut Memory,
    process: &mut Process,
    spot: Spot,
    from: usize,
    words: &mut [Word],
) -> Result<(), Halt>
    requires small { from < 2 ^ 61 }
    requires plain { none_refers (view_words words.old) ≡ true }
    ensures stores { Stores memory.old process.old result
        (rested (put_at (view_world memory.old) (view_process process.old) (view_spot spot) from (view_words words.old)))
        memory.new process.new }
    ensures place { process.new.frame.pc ≡ process.old.frame.pc }
    ensures kept { OnErr result ((memory.new ≡ memory.old) × (process.new ≡ process.old)) }
{
    match meet_there(memory, process, spot, from, words) {
        Ok(()) => {}
        Err(fault) => return Err(Halt::Fault(fault)),
    }
    match exchange(memory, process, spot, from, words) {
        Ok(()) => {
            memory.heap.stands();
            Ok(())
        }
        Err(halt) => Err(halt),
    }
}

// Stores words, each of which meets one of its kind, over those of a place, from one on. Their references are held, and those that stood
// there let go.
fn replace_words(
    memory: &mut Memory,
    process: &mut Process,
    spot: Spot,
    from: usize,
    words: &mut [Word],
) -> Result<(), Halt>
    requires small { from < 2 ^ 61 }
    requires meets { meets_at (view_world memory.old) (view_process process.old) (view_spot spot) from (view_words words.old) ≡ Found tt }
    requires live { AreLive memory.old.heap words.old }
    requires held { AreHeld memory.old.heap (names (view_process process.old)) }
    ensures stores { Stores memory.old process.old result
        (rested (put_at (view_world memory.old) (view_process process.old) (view_spot spot) from (view_words words.old)))
        memory.new process.new }
    ensures place { process.new.frame.pc ≡ process.old.frame.pc }
    ensures kept { OnErr result (Untouched memory.old process.old memory.new process.new) }
{
    memory.heap.stands();
    match hold_words(&mut memory.heap, words) {
        Ok(()) => {}
        Err(halt) => return Err(halt),
    }
    match exchange(memory, process, spot, from, words) {
        Ok(()) => {
            memory.heap.stands();
            memory.heap.drop_words(words);
            Ok(())
        }
        Err(halt) => {
            memory.heap.stands();
            memory.heap.drop_words(words);
            Err(halt)
        }
    }
}

/// Stores words over those of a place, from one on: their references are held, and those that stood there are let go in one step, and with
/// them all blocks that nothing names then. The words that stood there are the caller's then, and refer to what may be gone.
///
/// # Errors
/// The fault that the definition has, or want of memory; then memory is as it was.
pub fn store_words(
    memory: &mut Memory,
    process: &mut Process,
    spot: Spot,
    from: usize,
    words: &mut [Word],
) -> Result<(), Halt>
    requires small { from < 2 ^ 61 }
    requires live { AreLive memory.old.heap words.old }
    requires held { AreHeld memory.old.heap (names (view_process process.old)) }
    ensures stores { Stores memory.old process.old result
        (rested (put_at (view_world memory.old) (view_process process.old) (view_spot spot) from (view_words words.old)))
        memory.new process.new }
    ensures place { process.new.frame.pc ≡ process.old.frame.pc }
    ensures kept { OnErr result (Untouched memory.old process.old memory.new process.new) }
{
    match meet_there(memory, process, spot, from, words) {
        Ok(()) => replace_words(memory, process, spot, from, words),
        Err(fault) => Err(Halt::Fault(fault)),
    }
}
