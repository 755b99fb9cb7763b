//! Words of a row that go over others.

ghost use Rattle.std.specs.Prelude.{◌≡◌, ℕ, ◌+◌, ◌<◌, ◌^◌, [], ◌∷◌};
ghost use Rattle.dis_meaning.specs.Counts.{in_words};
ghost use Rattle.dis_meaning.specs.Words.{Found, fits};
ghost use Rattle.dis_copies.specs.Spans.{all_named, kinds, meets, over};
ghost use Rattle.dis_places.specs.Regions.{words_here};
ghost use Rattle.dis_places.specs.Words.{view_word, view_words, GivesFault};

use dis_places::{Fault, Memory, Process, Region, Word, nth};
use std::mem;

// Whether a word takes another: one of its own kind alone.
fn fits(old: Word, new: Word) -> bool
    ensures { result ≡ fits (view_word old) (view_word new) }
{
    old.is_reference() == new.is_reference()
}

// The word of this number is of the kind of another.
fn meets_at(
    memory: &Memory,
    process: &Process,
    region: Region,
    k: usize,
    new: Word,
) -> Result<(), Fault>
    ensures { GivesFault (λ u. u) result
        (meets (words_here memory.now.heap process.now region) k (view_word new ∷ [])) }
{
    let old = nth(memory, process, region, k)?;
    if fits(old, new) {
        Ok(())
    } else {
        Err(Fault::TypeCheck)
    }
}

/// Each of these words meets one of its kind in a region, from one on.
pub(crate) fn meet(
    memory: &Memory,
    process: &Process,
    region: Region,
    from: usize,
    words: &[Word],
) -> Result<(), Fault>
    requires { from < 2 ^ 61 }
    ensures { GivesFault (λ u. u) result
        (meets (words_here memory.now.heap process.now region) from (view_words words.now)) }
{
    for k in 0..words.len() {
        meets_at(memory, process, region, from + k, words[k])?;
    }
    Ok(())
}

/// Exchanges words with those of a row, from one on, each of which meets one of its kind.
pub(crate) fn exchange_row(row: &mut Vec<Word>, from: usize, words: &mut [Word])
    requires small { from < 2 ^ 61 }
    requires meets { meets (view_words row.old.items) from (view_words words.old) ≡ Found tt }
    ensures over { view_words row.new.items ≡ over (view_words row.old.items) from (view_words words.old) }
    ensures named { (n : ℕ) → in_words n (view_words row.new.items) + all_named words.new n
        ≡ in_words n (view_words row.old.items) + all_named words.old n }
    ensures kinds { kinds (view_words words.new) ≡ kinds (view_words words.old) }
{
    for k in 0..words.len() {
        mem::swap(&mut row[from + k], &mut words[k]);
    }
}
