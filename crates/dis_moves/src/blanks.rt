//! Bytes that go over those of words as they are made.

ghost use Rattle.std.specs.Prelude.{◌≡◌, ◌<◌, ◌^◌, true, length, IfOk};
ghost use Rattle.dis_meaning.specs.Words.{blank};
ghost use Rattle.dis_memory.specs.Copies.{moved, put_bytes};
ghost use Rattle.dis_memory.specs.Lists.{plain_type};
ghost use Rattle.dis_copies.specs.Spans.{none_refers};
ghost use Rattle.dis_moves.specs.Bytes.{bytes_moved};
ghost use Rattle.dis_places.specs.Regions.{words_here};
ghost use Rattle.dis_places.specs.Words.{view_words, Gives};

use crate::bytes::set_bytes;
use crate::moves::is_whole;
use dis_file::TypeDesc;
use dis_kinds::{bytes_from, plain_words};
use dis_places::{Halt, Memory, Process, Region, Word, blank};
use inf_text::Seq;
use std::alloc::{AllocError, Global};

// So many bytes of plain words, as they are made.
fn blank_words(alloc: Global, count: u32) -> Result<Vec<Word>, AllocError>
    requires { count < 2 ^ 31 }
    ensures { IfOk result (λ words. view_words words.items ≡ blank (plain_type count)) }
{
    let desc = TypeDesc {
        size: (count + 3) / 4 * 4,
        map: Seq::new(alloc),
    };
    blank(alloc, &desc)
}

// These bytes, in words as they are made.
fn words_of(alloc: Global, bytes: &[u8], count: u32) -> Result<Vec<Word>, Halt>
    requires few { count < 2 ^ 31 }
    ensures words { Gives (λ found. view_words found.items) result (put_bytes (blank (plain_type count)) 0 bytes.now) }
    ensures plain { IfOk result (λ found. none_refers (view_words found.items) ≡ true) }
{
    let mut row = match blank_words(alloc, count) {
        Ok(row) => row,
        Err(_) => return Err(Halt::NoMemory),
    };
    match set_bytes(&mut row, 0, bytes) {
        Ok(()) => Ok(row),
        Err(fault) => Err(Halt::Fault(fault)),
    }
}

// So many bytes of a region, in words as they are made.
fn byte_words(
    alloc: Global,
    memory: &Memory,
    process: &Process,
    source: Region,
    from: usize,
    count: u32,
) -> Result<Vec<Word>, Halt>
    requires small { from < 2 ^ 63 }
    requires few { count < 2 ^ 31 }
    ensures words { Gives (λ found. view_words found.items) result
        (bytes_moved (words_here memory.now.heap process.now source) from (blank (plain_type count)) 0 count) }
    ensures plain { IfOk result (λ found. none_refers (view_words found.items) ≡ true) }
{
    match bytes_from(alloc, memory, process, source, from, count) {
        Ok(bytes) => words_of(alloc, &bytes, count),
        Err(halt) => Err(halt),
    }
}

/// So many bytes of a region's plain words, in words of their own.
pub(crate) fn copied_words(
    alloc: Global,
    memory: &Memory,
    process: &Process,
    source: Region,
    from: usize,
    count: u32,
) -> Result<Vec<Word>, Halt>
    requires small { from < 2 ^ 63 }
    requires few { count < 2 ^ 31 }
    ensures words { Gives (λ found. view_words found.items) result
        (moved (words_here memory.now.heap process.now source) from (blank (plain_type count)) 0 count) }
    ensures plain { IfOk result (λ found. none_refers (view_words found.items) ≡ true) }
{
    if is_whole(from, 0, count) {
        plain_words(alloc, memory, process, source, from / 4, count / 4)
    } else {
        byte_words(alloc, memory, process, source, from, count)
    }
}
