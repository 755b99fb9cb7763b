//! Words and bytes of a region, as they are copied elsewhere.

ghost use Rattle.std.specs.Prelude.{◌≡◌, ◌<◌, ◌^◌, pos, slice_get, slice_index};
ghost use Rattle.limbo_values.specs.declared.number.Kind.TheVariants.{Byte};
ghost use Rattle.dis_meaning.specs.Words as words;
ghost use Rattle.dis_meaning.specs.Numbers.{bytes_of, number_at};
ghost use Rattle.dis_memory.specs.Copies as meaning;
ghost use Rattle.dis_places.specs.Regions.{words_here};
ghost use Rattle.dis_places.specs.Words.{view_word, view_words, Gives, GivesFault};

use dis_file::TypeDesc;
use dis_places::{Fault, Halt, Memory, Process, Region, Word, byte_of, nth, nth_number, plain};
use std::alloc::Global;

// The word of this number, which is plain.
fn plain_at(memory: &Memory, process: &Process, region: Region, k: usize) -> Result<Word, Fault>
    ensures { GivesFault view_word result (words.◌>>=◌
        (words.or_wrong words.type_check (slice_get (words_here memory.now.heap process.now region) k))
        words.plain) }
{
    let word = nth(memory, process, region, k)?;
    plain(word)
}

/// So many plain words of a region, from one on.
pub fn plain_words(
    alloc: Global,
    memory: &Memory,
    process: &Process,
    region: Region,
    from: usize,
    count: u32,
) -> Result<Vec<Word>, Halt>
    requires { from < 2 ^ 61 }
    ensures { Gives (λ found. view_words found.items) result
        (meaning.plain_words (words_here memory.now.heap process.now region) from count) }
{
    let mut found = Vec::new(alloc);
    for k in 0..count {
        let word = plain_at(memory, process, region, from + k as usize)?;
        found.push(word)?;
    }
    Ok(found)
}

/// So many words of a region, whatever they are, from one on.
pub fn taken_words(
    alloc: Global,
    memory: &Memory,
    process: &Process,
    region: Region,
    from: usize,
    count: u32,
) -> Result<Vec<Word>, Halt>
    requires { from < 2 ^ 61 }
    ensures { Gives (λ found. view_words found.items) result
        (meaning.taken (words_here memory.now.heap process.now region) from count) }
{
    let mut found = Vec::new(alloc);
    for k in 0..count {
        let word = nth(memory, process, region, from + k as usize)?;
        found.push(word)?;
    }
    Ok(found)
}

// A word that refers or is plain, as a type marks it.
fn as_marked(marked: bool, word: Word) -> Result<Word, Fault>
    ensures { GivesFault view_word result (meaning.as_marked marked (view_word word)) }
{
    if !marked {
        return plain(word);
    }
    match word {
        Word::Refer(_) => Ok(word),
        _ => Err(Fault::TypeCheck),
    }
}

// The word of this number, which refers or is plain.
fn marked_at(
    memory: &Memory,
    process: &Process,
    region: Region,
    k: usize,
    marked: bool,
) -> Result<Word, Fault>
    ensures { GivesFault view_word result (words.◌>>=◌
        (words.or_wrong words.type_check (slice_get (words_here memory.now.heap process.now region) k))
        (meaning.as_marked marked)) }
{
    let word = nth(memory, process, region, k)?;
    as_marked(marked, word)
}

/// The words of a value of a type, from one of a region on.
pub fn typed_words(
    alloc: Global,
    memory: &Memory,
    process: &Process,
    desc: &TypeDesc,
    region: Region,
    from: usize,
) -> Result<Vec<Word>, Halt>
    requires { from < 2 ^ 61 }
    ensures { Gives (λ found. view_words found.items) result
        (meaning.typed_words desc.now (words_here memory.now.heap process.now region) from) }
{
    let mut found = Vec::new(alloc);
    let count = desc.size / 4;
    for k in 0..count {
        let marked = desc.is_reference(k);
        let word = marked_at(memory, process, region, from + k as usize, marked)?;
        found.push(word)?;
    }
    Ok(found)
}

// The byte of this number among those of a region.
fn byte_at(memory: &Memory, process: &Process, region: Region, n: usize) -> Result<u8, Fault>
    ensures { GivesFault (λ b. b) result (words.◌>>=◌
        (number_at Byte (words_here memory.now.heap process.now region) (pos n))
        meaning.byte_of) }
{
    let word = nth_number(memory, process, region, n / 4)?;
    Ok(byte_of(word, n % 4))
}

/// So many bytes of a region, from one on.
pub fn bytes_from(
    alloc: Global,
    memory: &Memory,
    process: &Process,
    region: Region,
    from: usize,
    count: u32,
) -> Result<Vec<u8>, Halt>
    requires { from < 2 ^ 63 }
    ensures { Gives (λ found. found.items) result
        (meaning.bytes_from (words_here memory.now.heap process.now region) from count) }
{
    let mut found = Vec::new(alloc);
    for k in 0..count {
        let byte = byte_at(memory, process, region, from + k as usize)?;
        found.push(byte)?;
    }
    Ok(found)
}
