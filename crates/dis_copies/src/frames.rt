//! Words of a frame that go over others.

ghost use Rattle.std.specs.Prelude.{◌≡◌, ℕ, ◌+◌, ◌<◌, ◌^◌};
ghost use Rattle.dis_meaning.specs.Words.{Found};
ghost use Rattle.dis_memory.specs.Naming.{names};
ghost use Rattle.dis_copies.specs.Spans.{all_named, frame_meets, frame_over, kinds};
ghost use Rattle.dis_places.specs.View.{view_process};
ghost use Rattle.dis_places.specs.Words.{view_words};
ghost use Rattle.dis_stores.specs.Storing.{settled};

use crate::rows::exchange_row;
use dis_places::{Process, Slot, Word, find};

/// Exchanges words with those of the frame of this serial, from one on, each of which meets one of its kind.
pub(crate) fn exchange_frame(process: &mut Process, serial: u64, from: usize, words: &mut [Word])
    requires small { from < 2 ^ 61 }
    requires meets { frame_meets from (view_words words.old) (view_process process.old) serial ≡ Found tt }
    ensures over { frame_over from (view_words words.old) (view_process process.old) serial ≡ Found (settled (view_process process.new)) }
    ensures named { (n : ℕ) → names (view_process process.new) n + all_named words.new n
        ≡ names (view_process process.old) n + all_named words.old n }
    ensures kinds { kinds (view_words words.new) ≡ kinds (view_words words.old) }
    ensures place { process.new.frame.pc ≡ process.old.frame.pc }
{
    match find(process, serial) {
        Slot::Running => exchange_row(&mut process.frame.words, from, words),
        Slot::Below(k) => exchange_row(&mut process.below[k].words, from, words),
        Slot::Made(k) => exchange_row(&mut process.made[k].words, from, words),
        Slot::Gone => unreachable!(),
    }
}
