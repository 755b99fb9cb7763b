//! Arrays that are made.

ghost use Rattle.std.specs.Prelude.{◌≡◌, ℕ, ◌<◌, ◌≤◌, pos, map, replicate, true, IfOk, OnErr};
ghost use Rattle.std.specs.List.{range_with_len};
ghost use Rattle.ref_heap.specs.Words.{cells, naming};
ghost use Rattle.ref_heap.specs.Store.{AreHeld};
ghost use Rattle.dis_meaning.specs.Words.{Plain};
ghost use Rattle.dis_memory.specs.Blocks as blocks;
ghost use Rattle.dis_memory.specs.Naming.{names};
ghost use Rattle.dis_places.specs.Blocks.{type_by};
ghost use Rattle.dis_places.specs.View.{view_process, view_spot, view_world};
ghost use Rattle.dis_places.specs.Words.{view_cells, view_word, view_words};
ghost use Rattle.dis_stores.specs.Storing.{Stores};
ghost use Rattle.dis_blocks.specs.Making.{made};

use crate::making::store_new;
use dis_file::TypeDesc;
use dis_places::{Halt, Memory, Process, Spot, Tables, Word};
use ref_heap::{Kind, Words};
use std::alloc::{AllocError, Global};

// Word k of an array as it is made.
fn blank_word(desc: &TypeDesc, k: u32) -> Word
    requires some { 0 < desc.now.size }
    requires small { k < 67108864 }
    ensures { view_word result ≡ blocks.blank_word desc.now k }
{
    let byte = 4 * k % desc.size;
    if byte % 4 == 0 && desc.is_reference(byte / 4) {
        Word::Refer(None)
    } else {
        Word::Plain(0)
    }
}

// The words of an array as it is made.
fn blank_words(alloc: Global, desc: &TypeDesc, count: u32) -> Result<Vec<Word>, AllocError>
    requires some { 0 < count → 0 < desc.now.size }
    requires small { count ≤ 67108864 }
    ensures { IfOk result (λ words. view_words words.items ≡ map (blocks.blank_word desc.now) (range_with_len 0 count)) }
{
    let mut words = Vec::with_capacity(alloc, count as usize)?;
    for k in 0..count {
        words.push(blank_word(desc, k))?;
    }
    Ok(words)
}

// Whether each word of an array is a number.
fn is_plain(desc: &TypeDesc, count: u32) -> bool
    requires some { 0 < count → 0 < desc.now.size }
    requires small { count ≤ 67108864 }
    ensures { result ≡ true → (k : ℕ) → k < count → blocks.blank_word desc.now k ≡ Plain (pos 0) }
{
    for k in 0..count {
        if blank_word(desc, k).is_reference() {
            return false;
        }
    }
    true
}

// So many numbers, each of which is 0.
fn zeros(alloc: Global, count: u32) -> Result<Vec<u32>, AllocError>
    ensures { IfOk result (λ numbers. numbers.items ≡ replicate count 0) }
{
    let mut numbers = Vec::with_capacity(alloc, count as usize)?;
    let mut made = 0;
    while made < count {
        numbers.push(0)?;
        made += 1;
    }
    Ok(numbers)
}

/// The words of an array as it is made: kept compactly where all of them are numbers.
pub(crate) fn array_words(alloc: Global, desc: &TypeDesc, count: u32) -> Result<Words, AllocError>
    requires some { 0 < count → 0 < desc.now.size }
    requires small { count ≤ 67108864 }
    ensures words { IfOk result (λ w. view_cells (cells w) ≡ map (blocks.blank_word desc.now) (range_with_len 0 count)) }
    ensures bare { IfOk result (λ w. (n : ℕ) → naming (cells w) n ≡ 0) }
{
    if is_plain(desc, count) {
        let numbers = zeros(alloc, count)?;
        Ok(Words::compact(numbers))
    } else {
        let words = blank_words(alloc, desc, count)?;
        Ok(Words::wide(words))
    }
}

/// The words of an array of so many elements of the type of this number, as it is made: kept compactly where all of them are numbers.
///
/// # Errors
/// Want of memory.
pub fn element_words(
    alloc: Global,
    tables: &Tables,
    element: u32,
    long: u32,
) -> Result<Words, AllocError>
    requires { blocks.bytes_for (type_by tables.now element) long ≤ blocks.most_bytes }
    ensures words { IfOk result (λ w. view_cells (cells w)
        ≡ map (blocks.blank_word (type_by tables.now element)) (range_with_len 0 (blocks.words_for (type_by tables.now element) long))) }
    ensures bare { IfOk result (λ w. (n : ℕ) → naming (cells w) n ≡ 0) }
{
    match tables.types.get(element as usize) {
        Some(desc) => {
            let bytes = u64::from(desc.size) * u64::from(long);
            array_words(alloc, desc, ((bytes + 3) / 4) as u32)
        }
        // No such type: elements of no bytes.
        None => Ok(Words::compact(Vec::new(alloc))),
    }
}

/// Makes an array of so many elements of the type of this number, whose numbers are 0 and whose references name nothing, and stores a
/// reference to it where one stands.
///
/// # Errors
/// The fault that the definition has, or want of memory; then nothing has changed.
pub fn store_array(
    alloc: Global,
    memory: &mut Memory,
    process: &mut Process,
    spot: Spot,
    element: u32,
    long: u32,
) -> Result<(), Halt>
    requires small { blocks.bytes_for (type_by memory.old.tables element) long ≤ blocks.most_bytes }
    requires held { AreHeld memory.old.heap (names (view_process process.old)) }
    ensures stores { Stores memory.old process.old result
        (made (view_world memory.old) (view_process process.old) (view_spot spot)
        (blocks.blank_array (type_by memory.old.tables element) long))
        memory.new process.new }
    ensures place { process.new.frame.pc ≡ process.old.frame.pc }
    ensures kept { OnErr result ((memory.new ≡ memory.old) × (process.new ≡ process.old)) }
{
    match element_words(alloc, &memory.tables, element, long) {
        Ok(words) => {
            let kind = Kind::Array {
                element,
                length: long,
            };
            store_new(memory, process, spot, kind, words)
        }
        Err(_) => Err(Halt::NoMemory),
    }
}
