ghost use Rattle.std.specs.Prelude.{◌≡◌, ◌≢◌, ◌↔◌, ◌+◌, ◌*◌, ◌/◌, ◌%◌, ◌-◌, ◌<◌, ◌^◌, ℕ, List, length, slice_get, slice_set, Some};
ghost use Rattle.std.specs.Prelude.{IsTrue, true, false};
ghost use Rattle.ref_heap.specs.Words.{cell_of};
ghost use Rattle.ref_heap.specs.Store.{Block, at, outside, words_of, live_numbers};
ghost use Rattle.dis_values.specs.Arrays.{IsArray, byte_in, part_of};
ghost use Rattle.dis_values.specs.Bytes.{HasBytes, IsPlain, SetsByte, byte_of, bytes_of};

use crate::arrays::part;
use ref_heap::{Heap, Place, Ref, Word};

// What byte k of a number counts; the most significant is the first.
fn worth(k: u32) -> u32
    requires { k < 4 }
    ensures { result ≡ 256 ^ (3 - k) }
{
    match k {
        0 => 16777216,
        1 => 65536,
        2 => 256,
        _ => 1,
    }
}

// Byte k of a number.
fn byte_of_number(number: u32, k: u32) -> u8
    requires { k < 4 }
    ensures { result ≡ number / 256 ^ (3 - k) % 256 }
{
    let one = worth(k);
    (number / one % 256) as u8
}

// The number with another byte k.
fn with_byte(number: u32, k: u32, value: u8) -> u32
    requires { k < 4 }
    ensures here { result / 256 ^ (3 - k) % 256 ≡ value }
    ensures apart { (j : ℕ) → j < 4 → j ≢ k → result / 256 ^ (3 - j) % 256 ≡ number / 256 ^ (3 - j) % 256 }
{
    let one = worth(k);
    (number / one / 256 * 256 + value as u32) * one + number % one
}

// Byte k of a word, and 0 of one that is no number.
fn byte_of_word(word: &Word, k: u32) -> u8
    requires { k < 4 }
    ensures { result ≡ byte_in k (Some (cell_of word.now)) }
{
    match word {
        Word::Plain(number) => byte_of_number(*number, k),
        Word::Refer(_) => 0,
        Word::Address { place, at } => match place {
            Place::Block(_) => 0,
            Place::Frame(_) => 0,
        },
    }
}

// Byte i of a block.
pub(crate) fn byte_in_block(heap: &Heap, block: Ref, i: u32) -> u8
    ensures { (b : Block) → at heap.now block.serial ≡ Some b → result ≡ byte_of (words_of b) i }
{
    match heap.get(block, (i / 4) as usize) {
        Ok(word) => byte_of_word(&word, i % 4),
        Err(_) => 0,
    }
}

// Number i of a compact block.
fn number_in_block(heap: &Heap, block: Ref, i: u32) -> u32
    requires { (bytes : ℕ) × HasBytes heap.now block.serial bytes × (4 * i < bytes) }
    ensures { (numbers : List ℕ) → live_numbers (at heap.now block.serial) ≡ Some numbers → slice_get numbers i ≡ Some result }
{
    match heap.numbers(block) {
        Some(numbers) => numbers[i as usize],
        None => unreachable!(),
    }
}

// Sets byte i of a block.
pub(crate) fn put_byte(heap: &mut Heap, block: Ref, i: u32, value: u8)
    requires { (bytes : ℕ) × HasBytes heap.old block.serial bytes × (i < bytes) }
    ensures set { SetsByte heap.old heap.new block.serial i value }
    ensures outside { (n : ℕ) → outside heap.new n ≡ outside heap.old n }
{
    let number = number_in_block(heap, block, i / 4);
    let word = Word::Plain(with_byte(number, i % 4, value));
    match heap.set_word(block, (i / 4) as usize, word) {
        Ok(()) => {}
        Err(_) => unreachable!(),
    }
}

/// Byte `i` of an array of bytes or of a slice of one. None exactly where there is no such byte.
pub fn byte_at(heap: &Heap, array: Ref, i: u32) -> Option<u8>
    requires { IsArray heap.now array.serial }
    ensures { result ≡ slice_get (bytes_of heap.now array.serial) i }
{
    let whole = part(heap, array);
    if i >= whole.length {
        return None;
    }
    Some(byte_in_block(heap, whole.array, whole.from + i))
}

/// Sets byte `i` of an array of bytes or of a slice of one, and says whether there is such a byte.
pub fn set_byte(heap: &mut Heap, array: Ref, i: u32, value: u8) -> bool
    requires { IsPlain heap.old array.serial 1 }
    ensures within { IsTrue result ↔ i < length (bytes_of heap.old array.serial) }
    ensures bytes { result ≡ true → bytes_of heap.new array.serial ≡ slice_set (bytes_of heap.old array.serial) i value }
    ensures set { result ≡ true → SetsByte heap.old heap.new (part_of heap.old array.serial).array
        ((part_of heap.old array.serial).from + i) value }
    ensures plain { (s size : ℕ) → IsPlain heap.old s size → IsPlain heap.new s size }
    ensures outside { (n : ℕ) → outside heap.new n ≡ outside heap.old n }
    ensures unchanged { result ≡ false → heap.new ≡ heap.old }
{
    let whole = part(heap, array);
    if i >= whole.length {
        return false;
    }
    put_byte(heap, whole.array, whole.from + i, value);
    true
}
