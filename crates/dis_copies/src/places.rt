//! Words of a place that go over others.

ghost use Rattle.std.specs.Prelude.{◌≡◌, ℕ, ℤ, ◌+◌, ◌<◌, ◌^◌, IfErr, OnErr, OnOk};
ghost use Rattle.ref_heap.specs.Store.{AreHeld, at as block_at, outside};
ghost use Rattle.dis_meaning.specs.Words.{Found};
ghost use Rattle.dis_meaning.specs.Places.{Far};
ghost use Rattle.dis_memory.specs.Places.{data_at, with_data};
ghost use Rattle.dis_memory.specs.Places as places;
ghost use Rattle.dis_copies.specs.Spans.{all_named, data_meets, data_over, kinds, meets, meets_at, over, over_at, place_meets};
ghost use Rattle.dis_copies.specs.Spans.{ExchangesAll};
ghost use Rattle.dis_places.specs.declared.fault.Halt.TheVariants as halt;
ghost use Rattle.dis_places.specs.Regions.{block_words};
ghost use Rattle.dis_places.specs.View.{view_place, view_process, view_spot, view_world};
ghost use Rattle.dis_places.specs.Words.{view_words};
ghost use Rattle.dis_stores.specs.Storing.{rested, settled};

use crate::blocks::exchange_block;
use crate::frames::exchange_frame;
use crate::rows::exchange_row;
use dis_places::{Halt, Memory, Place, Process, Ref, Spot, Word, data_of};

// Exchanges words with those of a block that operands reach, from one on.
fn exchange_reached(
    memory: &mut Memory,
    block: Ref,
    from: usize,
    words: &mut [Word],
) -> Result<(), Halt>
    requires reached { data_at (view_world memory.old) block.serial ≡ Found (block_words (block_at memory.old.heap block.serial)) }
    requires meets { meets (block_words (block_at memory.old.heap block.serial)) from (view_words words.old) ≡ Found tt }
    requires small { from < 2 ^ 61 }
    requires held { AreHeld memory.old.heap (all_named words.old) }
    ensures over { OnOk result (with_data (view_world memory.old) block.serial
        (over (block_words (block_at memory.old.heap block.serial)) from (view_words words.old)) ≡ Found (view_world memory.new)) }
    ensures exchanges { OnOk result
        ((n : ℕ) → outside memory.new.heap n + all_named words.old n ≡ outside memory.old.heap n + all_named words.new n) }
    ensures kinds { kinds (view_words words.new) ≡ kinds (view_words words.old) }
    ensures tables { memory.new.tables ≡ memory.old.tables }
    ensures fault { IfErr result (λ h. h ≡ halt.NoMemory) }
    ensures kept { OnErr result ((memory.new ≡ memory.old) × (words.new ≡ words.old)) }
{
    memory.heap.stands();
    exchange_block(&mut memory.heap, block, from, words)
}

// Exchanges words with those of a block, from one on, each of which meets one of its kind.
fn exchange_data(
    memory: &mut Memory,
    block: Ref,
    from: usize,
    words: &mut [Word],
) -> Result<(), Halt>
    requires meets { data_meets from (view_words words.old) (view_world memory.old) block.serial ≡ Found tt }
    requires small { from < 2 ^ 61 }
    requires held { AreHeld memory.old.heap (all_named words.old) }
    ensures over { OnOk result (data_over from (view_words words.old) (view_world memory.old) block.serial
        ≡ Found (view_world memory.new)) }
    ensures exchanges { OnOk result
        ((n : ℕ) → outside memory.new.heap n + all_named words.old n ≡ outside memory.old.heap n + all_named words.new n) }
    ensures kinds { kinds (view_words words.new) ≡ kinds (view_words words.old) }
    ensures tables { memory.new.tables ≡ memory.old.tables }
    ensures fault { IfErr result (λ h. h ≡ halt.NoMemory) }
    ensures kept { OnErr result ((memory.new ≡ memory.old) × (words.new ≡ words.old)) }
{
    match data_of(&memory.heap, block) {
        Ok(_) => exchange_reached(memory, block, from, words),
        Err(_) => unreachable!(),
    }
}

// Exchanges words with those of a place, from one on, each of which meets one of its kind.
fn exchange_far(
    memory: &mut Memory,
    process: &mut Process,
    place: Place,
    from: usize,
    words: &mut [Word],
) -> Result<(), Halt>
    requires meets { place_meets from (view_words words.old) (view_world memory.old) (view_process process.old) (view_place place)
        ≡ Found tt }
    requires small { from < 2 ^ 61 }
    requires held { AreHeld memory.old.heap (all_named words.old) }
    ensures over { (at : ℤ) → OnOk result
        (rested (over_at (view_world memory.old) (view_process process.old) (Far (view_place place) at) from (view_words words.old))
        ≡ Found (places.memory (view_world memory.new) (settled (view_process process.new)))) }
    ensures exchanges { OnOk result (ExchangesAll memory.old process.old memory.new process.new words.old words.new) }
    ensures kinds { kinds (view_words words.new) ≡ kinds (view_words words.old) }
    ensures tables { memory.new.tables ≡ memory.old.tables }
    ensures place { process.new.frame.pc ≡ process.old.frame.pc }
    ensures fault { IfErr result (λ h. h ≡ halt.NoMemory) }
    ensures kept { OnErr result ((memory.new ≡ memory.old) × ((process.new ≡ process.old) × (words.new ≡ words.old))) }
{
    match place {
        Place::Frame(serial) => {
            exchange_frame(process, serial, from, words);
            Ok(())
        }
        Place::Block(block) => exchange_data(memory, block, from, words),
    }
}

/// Exchanges words with those of a place, from one on, each of which meets one of its kind. The caller gives away the references in them,
/// and has those that stood there from then on: nothing is let go yet.
///
/// # Errors
/// Want of memory; then nothing has changed.
pub(crate) fn exchange(
    memory: &mut Memory,
    process: &mut Process,
    spot: Spot,
    from: usize,
    words: &mut [Word],
) -> Result<(), Halt>
    requires meets { meets_at (view_world memory.old) (view_process process.old) (view_spot spot) from (view_words words.old) ≡ Found tt }
    requires small { from < 2 ^ 61 }
    requires held { AreHeld memory.old.heap (all_named words.old) }
    ensures over { OnOk result
        (rested (over_at (view_world memory.old) (view_process process.old) (view_spot spot) from (view_words words.old))
        ≡ Found (places.memory (view_world memory.new) (settled (view_process process.new)))) }
    ensures exchanges { OnOk result (ExchangesAll memory.old process.old memory.new process.new words.old words.new) }
    ensures kinds { kinds (view_words words.new) ≡ kinds (view_words words.old) }
    ensures tables { memory.new.tables ≡ memory.old.tables }
    ensures place { process.new.frame.pc ≡ process.old.frame.pc }
    ensures fault { IfErr result (λ h. h ≡ halt.NoMemory) }
    ensures kept { OnErr result ((memory.new ≡ memory.old) × ((process.new ≡ process.old) × (words.new ≡ words.old))) }
{
    match spot {
        Spot::Own(_) => {
            exchange_row(&mut process.frame.words, from, words);
            Ok(())
        }
        Spot::Data(_) => exchange_data(memory, process.frame.instance, from, words),
        Spot::Far(place, _) => exchange_far(memory, process, place, from, words),
    }
}
