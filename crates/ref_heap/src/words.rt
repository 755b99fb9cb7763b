ghost use Rattle.std.specs.Prelude.{◌≡◌, ◌++◌, ℕ, ◌<◌, Some, None, IfOk, IsOk, OnOk, OnErr, map, length, slice_get, slice_set, option_copied, cond};
ghost use Rattle.std.specs.Option.{option_map};
ghost use Rattle.ref_heap.specs.Words.{Content, wide as wide_of, compact as compact_of, cells, cell_of, naming, IsCompact, with_cell, with_more, numbers_in};

use crate::word::{Place, Word};
use std::alloc::{AllocError, Global};
use std::marker::Model;

/// The words of a block. Numbers alone may be kept compactly, in four bytes each; such words take no address and no
/// reference.
#[derive(Drop)]
pub struct Words {
    kept: Kept,
}

#[derive(Drop)]
enum Kept {
    Wide(Vec<Word>),
    Compact(Vec<u32>),
}

impl Model for Words {
    ghost use Rattle.ref_heap.specs.Words.{Content, content_code};

    ghost Value = { Content };

    ghost coded = { content_code };

    ghost use Rattle.ref_heap.specs.Kept.{content_of};

    ghost view = { λ a. content_of a.kept };
}

impl Words {
    /// Words of any kind.
    pub fn wide(words: Vec<Word>) -> Words
        ensures { result ≡ wide_of (map cell_of words.items) }
    {
        Words {
            kept: Kept::Wide(words),
        }
    }

    /// Plain words, kept compactly.
    pub fn compact(numbers: Vec<u32>) -> Words
        ensures { result ≡ compact_of numbers.items }
    {
        Words {
            kept: Kept::Compact(numbers),
        }
    }

    /// How many words there are.
    pub(crate) fn len(&self) -> usize
        ensures { result ≡ length (cells self.now) }
    {
        match &self.kept {
            Kept::Wide(words) => words.len(),
            Kept::Compact(numbers) => numbers.len(),
        }
    }

    /// Word i, if there is one.
    pub(crate) fn get(&self, i: usize) -> Option<Word>
        ensures { option_map cell_of result ≡ slice_get (cells self.now) i }
    {
        match &self.kept {
            Kept::Wide(words) => words.get(i).copied(),
            Kept::Compact(numbers) => numbers.get(i).map(|n| Word::Plain(*n)),
        }
    }

    /// The numbers of compact words.
    pub(crate) fn numbers(&self) -> Option<&[u32]>
        ensures { option_copied result ≡ numbers_in self.now }
    {
        match &self.kept {
            Kept::Wide(_) => None,
            Kept::Compact(numbers) => Some(numbers.as_slice()),
        }
    }

    /// Words that hold all references that these hold.
    pub(crate) fn references(&self) -> &[Word]
        ensures { (n : ℕ) → naming (map cell_of result.now) n ≡ naming (cells self.now) n }
    {
        match &self.kept {
            Kept::Wide(words) => words.as_slice(),
            Kept::Compact(_) => &[],
        }
    }

    /// Sets word i.
    pub(crate) fn set(&mut self, i: usize, word: Word)
        requires { i < length (cells self.old) }
        ensures { self.new ≡ with_cell self.old i (cell_of word) }
    {
        match &mut self.kept {
            Kept::Wide(words) => put_word(words, i, word),
            Kept::Compact(numbers) => put_number(numbers, i, &word),
        }
    }

    /// Adds numbers behind compact words.
    pub(crate) fn append(&mut self, more: &[u32]) -> Result<(), AllocError>
        requires { IsCompact self.old }
        ensures ok { OnOk result (self.new ≡ with_more self.old more.now) }
        ensures err { OnErr result (self.new ≡ self.old) }
    {
        match &mut self.kept {
            Kept::Wide(_) => Ok(()),
            Kept::Compact(numbers) => numbers.extend_from_slice(more),
        }
    }

    /// Keeps the same words so that they take addresses.
    pub(crate) fn widen(&mut self, alloc: Global) -> Result<(), AllocError>
        ensures ok { OnOk result (self.new ≡ wide_of (cells self.old)) }
        ensures wide { numbers_in self.old ≡ None → IsOk result }
        ensures err { OnErr result (self.new ≡ self.old) }
    {
        let words = match &self.kept {
            Kept::Wide(_) => return Ok(()),
            Kept::Compact(numbers) => as_words(alloc, numbers)?,
        };
        self.kept = Kept::Wide(words);
        Ok(())
    }
}

fn as_words(alloc: Global, numbers: &[u32]) -> Result<Vec<Word>, AllocError>
    ensures { IfOk result (λ words. words.items ≡ map Word.Plain numbers.now) }
{
    let mut words = Vec::with_capacity(alloc, numbers.len())?;
    for number in numbers {
        words.push(Word::Plain(*number))?;
    }
    Ok(words)
}

fn put_word(words: &mut Vec<Word>, i: usize, word: Word)
    requires { i < length words.old.items }
    ensures { words.new.items ≡ slice_set words.old.items i word }
{
    words[i] = word;
}

// Compact words take numbers alone.
fn put_number(numbers: &mut Vec<u32>, i: usize, word: &Word)
    requires { i < length numbers.old.items }
    ensures { compact_of numbers.new.items ≡ with_cell (compact_of numbers.old.items) i (cell_of word.now) }
{
    match word {
        Word::Plain(n) => numbers[i] = *n,
        Word::Refer(_) => {}
        Word::Address { place, at } => match place {
            Place::Block(_) => {}
            Place::Frame(_) => {}
        },
    }
}
