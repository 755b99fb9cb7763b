//! Numbers as they lie in words (Dis Virtual Machine Specification, "Data representations").

ghost use Rattle.std.specs.Prelude.{◌≡◌, ◌+◌, ◌<◌, ◌^◌, pos, slice_index, IfOk};
ghost use Rattle.limbo_values.specs.declared.number.Kind.TheVariants as kind;
ghost use Rattle.limbo_values.specs.Numbers.{kind_of, value_of};
ghost use Rattle.dis_meaning.specs.Words as words;
ghost use Rattle.dis_meaning.specs.Numbers as meaning;
ghost use Rattle.dis_places.specs.Regions.{words_here};
ghost use Rattle.dis_places.specs.Words.{view_word, GivesFault};

use crate::fault::Fault;
use crate::memory::Memory;
use crate::process::Process;
use crate::spots::{Region, byte_number, nth, word_number};
use limbo_values::{Kind, Number};
use ref_heap::Word;

/// The number in a word, 0 where an address stands in it.
#[inline(always)]
pub fn number_in(word: Word) -> Result<i32, Fault>
    ensures { GivesFault (λ n. n) result (words.number_in (view_word word)) }
{
    match word {
        Word::Plain(n) => Ok(n.cast_signed()),
        Word::Address { place, at } => Ok(0),
        Word::Refer(_) => Err(Fault::TypeCheck),
    }
}

/// The number in the word of this number.
#[inline(always)]
pub fn nth_number(
    memory: &Memory,
    process: &Process,
    region: Region,
    k: usize,
) -> Result<i32, Fault>
    ensures { GivesFault (λ n. n) result (meaning.nth_number (words_here memory.now.heap process.now region) k) }
{
    let word = nth(memory, process, region, k)?;
    number_in(word)
}

/// One of the four bytes of a plain word, the most significant of which is the first.
#[inline(always)]
pub fn byte_of(z: i32, k: usize) -> u8
    requires { k < 4 }
    ensures { result ≡ slice_index (meaning.bytes_of z) k }
{
    z.cast_unsigned().to_be_bytes()[k]
}

/// A big of its two words.
#[inline(always)]
pub fn joined(high: i32, low: i32) -> i64
    ensures { result ≡ meaning.joined high low }
{
    i64::from(high) * (1 << 32) + i64::from(low.cast_unsigned())
}

#[inline]
fn byte_at(memory: &Memory, process: &Process, region: Region, at: i64) -> Result<u8, Fault>
    ensures { GivesFault pos result (meaning.number_at kind.Byte (words_here memory.now.heap process.now region) at) }
{
    let n = byte_number(at)?;
    let word = nth_number(memory, process, region, n / 4)?;
    Ok(byte_of(word, n % 4))
}

#[inline(always)]
fn int_at(memory: &Memory, process: &Process, region: Region, at: i64) -> Result<i32, Fault>
    ensures { GivesFault (λ n. n) result (meaning.number_at kind.Int (words_here memory.now.heap process.now region) at) }
{
    let k = word_number(at)?;
    nth_number(memory, process, region, k)
}

#[inline]
fn big_at(memory: &Memory, process: &Process, region: Region, at: i64) -> Result<i64, Fault>
    ensures { GivesFault (λ n. n) result (meaning.number_at kind.Big (words_here memory.now.heap process.now region) at) }
{
    let k = word_number(at)?;
    let high = nth_number(memory, process, region, k)?;
    let low = nth_number(memory, process, region, k + 1)?;
    Ok(joined(high, low))
}

/// The number of a kind at a byte of a region.
#[inline(always)]
pub fn number_at(
    memory: &Memory,
    process: &Process,
    kind: Kind,
    region: Region,
    at: i64,
) -> Result<Number, Fault>
    ensures number { GivesFault value_of result (meaning.number_at kind (words_here memory.now.heap process.now region) at) }
    ensures kind { IfOk result (λ n. kind_of n ≡ kind) }
{
    match kind {
        Kind::Byte => Ok(Number::Byte(byte_at(memory, process, region, at)?)),
        Kind::Int => Ok(Number::Int(int_at(memory, process, region, at)?)),
        Kind::Big => Ok(Number::Big(big_at(memory, process, region, at)?)),
    }
}
