//! Arrays of bytes, as they lie in words (Dis Virtual Machine Specification, "Data representations").

ghost use Rattle.std.specs.Prelude.{◌≡◌, ◌*◌, ◌<◌, ◌≤◌, length, replicate, IfOk};
ghost use Rattle.std.specs.Int.{w32, cast_signed};
ghost use Rattle.dis_meaning.specs.Numbers as meaning;
ghost use Rattle.dis_meaning.specs.Words.{Found};
ghost use Rattle.dis_memory.specs.Blocks as blocks;
ghost use Rattle.dis_memory.specs.Copies as copies;
ghost use Rattle.dis_memory.specs.Strings as strings;
ghost use Rattle.dis_text_numbers.specs.Packed.{words_of};

use std::alloc::{AllocError, Global};

// A word with one of its bytes replaced.
fn with_byte(word: u32, k: usize, byte: u8) -> u32
    requires { k < 4 }
    ensures { cast_signed w32 result ≡ meaning.with_byte (cast_signed w32 word) k byte }
{
    let mut bytes = word.to_be_bytes();
    bytes[k] = byte;
    u32::from_be_bytes(bytes)
}

// So many words, each of which is 0.
fn zeros(alloc: Global, count: usize) -> Result<Vec<u32>, AllocError>
    ensures { IfOk result (λ words. words.items ≡ replicate count 0) }
{
    let mut words = Vec::with_capacity(alloc, count)?;
    let mut made = 0;
    while made < count {
        words.push(0)?;
        made += 1;
    }
    Ok(words)
}

// Puts bytes over those of words, from the first one on.
fn put_bytes(words: &mut Vec<u32>, bytes: &[u8])
    requires { length bytes.now ≤ 4 * length words.old.items }
    ensures { copies.put_bytes (words_of words.old.items) 0 bytes.now ≡ Found (words_of words.new.items) }
{
    for (at, byte) in bytes.iter().enumerate() {
        words[at / 4] = with_byte(words[at / 4], at % 4, *byte);
    }
}

/// The words of an array of these bytes.
pub(crate) fn packed(alloc: Global, bytes: &[u8]) -> Result<Vec<u32>, AllocError>
    requires { length bytes.now ≤ blocks.most_bytes }
    ensures { IfOk result (λ words. strings.array_of bytes.now
        ≡ Found (blocks.Array strings.byte_type (length bytes.now) (words_of words.items))) }
{
    let mut words = zeros(alloc, (bytes.len() + 3) / 4)?;
    put_bytes(&mut words, bytes);
    Ok(words)
}
