//! The arguments of a format, each of which fits or not.

ghost use Rattle.std.specs.Prelude.{◌≡◌, ◌+◌, ◌<◌, ◌^◌, suc, slice_get};
ghost use Rattle.dis_meaning.specs.Numbers as numbers;
ghost use Rattle.dis_meaning.specs.Words as words;
ghost use Rattle.dis_memory.specs.Formats.{fitting};
ghost use Rattle.dis_memory.specs.Kinds.{text_at};
ghost use Rattle.dis_places.specs.Regions.{words_here};
ghost use Rattle.dis_places.specs.View.{view_world};
ghost use Rattle.dis_places.specs.Words.{Gives};
ghost use Rattle.dis_formats.specs.Arguments.{nth_big, nth_text};

use dis_kinds::text_of;
use dis_places::{Halt, Memory, Process, Raise, Region, joined, nth, nth_number, reference};

/// The int in the word of this number.
pub(crate) fn int_at(
    memory: &Memory,
    process: &Process,
    region: Region,
    k: usize,
) -> Result<i32, Halt>
    ensures { Gives (λ n. n) result (fitting (numbers.nth_number (words_here memory.now.heap process.now region) k)) }
{
    match nth_number(memory, process, region, k) {
        Ok(n) => Ok(n),
        Err(_) => Err(Halt::Raises(Raise::BadFormat)),
    }
}

/// The big in the words from this number on.
pub(crate) fn big_at(
    memory: &Memory,
    process: &Process,
    region: Region,
    k: usize,
) -> Result<i64, Halt>
    requires { k + 1 < 2 ^ 64 }
    ensures { Gives (λ n. n) result (fitting (nth_big (words_here memory.now.heap process.now region) k)) }
{
    let high = match nth_number(memory, process, region, k) {
        Ok(high) => high,
        Err(_) => return Err(Halt::Raises(Raise::BadFormat)),
    };
    match nth_number(memory, process, region, k + 1) {
        Ok(low) => Ok(joined(high, low)),
        Err(_) => Err(Halt::Raises(Raise::BadFormat)),
    }
}

/// The string that the word of this number refers to.
pub(crate) fn text_in<'a>(
    memory: &'a Memory,
    process: &Process,
    region: Region,
    k: usize,
) -> Result<&'a [u32], Halt>
    ensures { Gives (λ t. t.now) result
        (fitting (nth_text (view_world memory.now) (words_here memory.now.heap process.now region) k)) }
{
    let word = match nth(memory, process, region, k) {
        Ok(word) => word,
        Err(_) => return Err(Halt::Raises(Raise::BadFormat)),
    };
    let block = match reference(word) {
        Ok(block) => block,
        Err(_) => return Err(Halt::Raises(Raise::BadFormat)),
    };
    match text_of(memory, block) {
        Ok(text) => Ok(text),
        Err(_) => Err(Halt::Raises(Raise::BadFormat)),
    }
}
