//! Words that go over others, and the process that then goes on.

ghost use Rattle.std.specs.Prelude.{◌≡◌, ◌+◌, ◌<◌, ◌^◌, OnErr};
ghost use Rattle.ref_heap.specs.Store.{AreHeld};
ghost use Rattle.dis_meaning.specs.Words as meaning;
ghost use Rattle.dis_memory.specs.Naming.{names};
ghost use Rattle.dis_memory.specs.Process.{next};
ghost use Rattle.dis_blocks.specs.Making.{Untouched};
ghost use Rattle.dis_copies.specs.Spans.{put_at, AreLive};
ghost use Rattle.dis_moves.specs.Values.{value_at, value_to};
ghost use Rattle.dis_places.specs.View.{view_process, view_spot, view_world};
ghost use Rattle.dis_places.specs.Words.{view_words};
ghost use Rattle.dis_results.specs.Going.{Goes};

use dis_copies::store_words;
use dis_isa::Operand;
use dis_makings::go_on;
use dis_places::{Halt, Memory, Process, Spot, Word, reach, spot_of, word_number};

/// Stores words over those of a place, from one on, and the process goes on.
///
/// # Errors
/// The fault that the definition has, or want of memory; then memory is as it was.
pub fn finish_words(
    memory: &mut Memory,
    process: &mut Process,
    spot: Spot,
    from: usize,
    words: &mut [Word],
) -> Result<(), Halt>
    requires place { process.old.frame.pc + 1 < 2 ^ 64 }
    requires small { from < 2 ^ 61 }
    requires live { AreLive memory.old.heap words.old }
    requires held { AreHeld memory.old.heap (names (view_process process.old)) }
    ensures goes { Goes memory.old process.old result
        (meaning.◌>>=◌ (put_at (view_world memory.old) (view_process process.old) (view_spot spot) from (view_words words.old))
        (λ m. meaning.Found (next m))) memory.new process.new }
    ensures kept { OnErr result (Untouched memory.old process.old memory.new process.new) }
{
    let outcome = store_words(memory, process, spot, from, words);
    go_on(process, outcome)
}

// A value goes over what stands in a place.
fn give_value(
    memory: &mut Memory,
    process: &mut Process,
    spot: Spot,
    words: &mut [Word],
) -> Result<(), Halt>
    requires place { process.old.frame.pc + 1 < 2 ^ 64 }
    requires live { AreLive memory.old.heap words.old }
    requires held { AreHeld memory.old.heap (names (view_process process.old)) }
    ensures goes { Goes memory.old process.old result
        (value_at (view_world memory.old) (view_process process.old) (view_words words.old) (view_spot spot)) memory.new process.new }
    ensures kept { OnErr result (Untouched memory.old process.old memory.new process.new) }
{
    memory.heap.stands();
    match reach(memory, process, spot) {
        Ok(_) => {}
        Err(fault) => return Err(Halt::Fault(fault)),
    }
    match word_number(spot.byte()) {
        Ok(from) => finish_words(memory, process, spot, from, words),
        Err(fault) => Err(Halt::Fault(fault)),
    }
}

/// A value goes where a destination says.
///
/// # Errors
/// The fault that the definition has, or want of memory; then memory is as it was.
pub(crate) fn value_to(
    memory: &mut Memory,
    process: &mut Process,
    destination: Operand,
    words: &mut [Word],
) -> Result<(), Halt>
    requires place { process.old.frame.pc + 1 < 2 ^ 64 }
    requires live { AreLive memory.old.heap words.old }
    requires held { AreHeld memory.old.heap (names (view_process process.old)) }
    ensures goes { Goes memory.old process.old result
        (value_to (view_world memory.old) (view_process process.old) destination (view_words words.old)) memory.new process.new }
    ensures kept { OnErr result (Untouched memory.old process.old memory.new process.new) }
{
    memory.heap.stands();
    match spot_of(memory, process, destination) {
        Ok(spot) => give_value(memory, process, spot, words),
        Err(halt) => Err(halt),
    }
}
