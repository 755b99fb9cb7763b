//! Bytes that go over those of words.

ghost use Rattle.std.specs.Prelude.{◌≡◌, ◌/◌, ◌<◌, ◌^◌, pos, true, length, IfErr, IfOk};
ghost use Rattle.limbo_values.specs.declared.number.Kind.TheVariants.{Byte};
ghost use Rattle.dis_meaning.specs.Numbers.{nth_number, with_number_at};
ghost use Rattle.dis_meaning.specs.Words.{Plain};
ghost use Rattle.dis_memory.specs.Copies.{put, put_bytes};
ghost use Rattle.dis_copies.specs.Spans.{none_refers};
ghost use Rattle.dis_moves.specs.Bytes.{touched};
ghost use Rattle.dis_places.specs.Regions.{words_here};
ghost use Rattle.dis_places.specs.Words.{view_word, view_words, GivesFault, Halts};

use dis_kinds::plain_words;
use dis_places::{Fault, Halt, Memory, Process, Region, Word, number_in};
use dis_results::with_byte;
use std::alloc::Global;

// The number in the word of this number.
fn number_of(row: &[Word], k: usize) -> Result<i32, Fault>
    ensures { GivesFault (λ n. n) result (nth_number (view_words row.now) k) }
{
    match row.get(k) {
        Some(word) => number_in(*word),
        None => Err(Fault::TypeCheck),
    }
}

// The word of this number.
fn plain(z: i32) -> Word
    ensures { view_word result ≡ Plain z }
{
    Word::Plain(z.cast_unsigned())
}

// Replaces a byte of a row: the others of its word are left as they were read.
fn set_byte(row: &mut Vec<Word>, n: usize, byte: u8) -> Result<(), Fault>
    ensures { GivesFault (λ _. view_words row.new.items) result (with_number_at Byte (view_words row.old.items) (pos n) (pos byte)) }
{
    let old = number_of(row, n / 4)?;
    let word = plain(with_byte(old, n % 4, byte));
    row[n / 4] = word;
    Ok(())
}

/// Replaces bytes of a row, from one on.
pub(crate) fn set_bytes(row: &mut Vec<Word>, from: usize, bytes: &[u8]) -> Result<(), Fault>
    requires { from < 2 ^ 61 }
    ensures { GivesFault (λ _. view_words row.new.items) result (put_bytes (view_words row.old.items) from bytes.now) }
{
    for k in 0..bytes.len() {
        set_byte(row, from + k, bytes[k])?;
    }
    Ok(())
}

// How many words so many bytes touch, from one on.
fn touched(to: usize, count: u32) -> u32
    requires { count < 2 ^ 31 }
    ensures { result ≡ touched to count }
{
    if count == 0 {
        0
    } else {
        ((to % 4) as u32 + count + 3) / 4
    }
}

/// The words in which bytes lie that go over those of a region, from one on, with these bytes in them.
///
/// # Errors
/// The fault that the definition has, or want of memory.
pub(crate) fn bytes_over(
    alloc: Global,
    memory: &Memory,
    process: &Process,
    region: Region,
    to: usize,
    bytes: &[u8],
) -> Result<Vec<Word>, Halt>
    requires small { to < 2 ^ 63 }
    requires few { length bytes.now < 2 ^ 31 }
    ensures put { IfOk result (λ row. put_bytes (words_here memory.now.heap process.now region) to bytes.now
        ≡ put (words_here memory.now.heap process.now region) (to / 4) (view_words row.items)) }
    ensures plain { IfOk result (λ row. none_refers (view_words row.items) ≡ true) }
    ensures fault { IfErr result (λ h. Halts h (put_bytes (words_here memory.now.heap process.now region) to bytes.now)) }
{
    let count = touched(to, bytes.len() as u32);
    let mut row = match plain_words(alloc, memory, process, region, to / 4, count) {
        Ok(row) => row,
        Err(halt) => return Err(halt),
    };
    match set_bytes(&mut row, to % 4, bytes) {
        Ok(()) => Ok(row),
        Err(fault) => Err(Halt::Fault(fault)),
    }
}
