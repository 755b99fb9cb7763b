ghost use Rattle.std.specs.Prelude.{◌≡◌, ◌↔◌, ◌+◌, ◌*◌, ◌/◌, ◌<◌, ◌≤◌, ◌^◌, ℕ, length, slice_get, slice_index, Some, Err, IsTrue, IfOk};
ghost use Rattle.std.specs.Prelude.{IfErr};
ghost use Rattle.std.specs.Prelude.{OnOk, OnErr};
ghost use Rattle.ref_heap.specs.Words.{plain};
ghost use Rattle.ref_heap.specs.Store.{Block, at, outside, words_of};
ghost use Rattle.dis_values.specs.Making.{serial_of};
ghost use Rattle.dis_values.specs.Arrays.{IsWhole, elements, length_of, part_of};
ghost use Rattle.dis_values.specs.Bytes.{HasBytes, IsPlain, byte_of};
ghost use Rattle.dis_values.specs.Copies.{IsPlainOrNil, Writes, ArrayTakes, TakesOrNone, elements_or_none, overwritten};

use crate::arrays::{array_len, part};
use crate::bytes::{byte_in_block, put_byte};
use ref_heap::{Heap, Kind, Ref, Word};
use std::alloc::{AllocError, Global};

/// Why the elements of an array aren't copied into another.
#[derive(Clone, Copy, Debug, PartialEq, Eq)]
pub enum CopyFault {
    /// Want of memory.
    NoMemory,
    /// There are not so many elements to copy over: `array bounds error`.
    Bounds,
    /// Refusal 94: a block would have more references than there may be.
    Full,
}

// The bytes of a block from one on.
fn read_bytes(
    alloc: Global,
    heap: &Heap,
    block: Ref,
    from: u32,
    count: u32,
) -> Result<Vec<u8>, AllocError>
    requires { from + count < 2 ^ 32 }
    ensures len { IfOk result (λ bytes. length bytes.items ≡ count) }
    ensures each { IfOk result (λ bytes. (b : Block) → at heap.now block.serial ≡ Some b → (q : ℕ) → q < count
        → byte_of (words_of b) (from + q) ≡ slice_index bytes.items q) }
{
    let mut bytes = Vec::with_capacity(alloc, count as usize)?;
    for i in 0..count {
        bytes.push(byte_in_block(heap, block, from + i))?;
    }
    Ok(bytes)
}

// Sets the bytes of a block from one on.
fn put_bytes(heap: &mut Heap, block: Ref, from: u32, bytes: &[u8])
    requires small { from + length bytes.now < 2 ^ 32 }
    requires kept { (all : ℕ) × HasBytes heap.old block.serial all × (from + length bytes.now ≤ all) }
    ensures writes { Writes byte_of heap.old heap.new block.serial from (length bytes.now) (λ q. slice_index bytes.now q) }
    ensures outside { (n : ℕ) → outside heap.new n ≡ outside heap.old n }
{
    let mut i = from;
    for byte in bytes {
        put_byte(heap, block, i, *byte);
        i += 1;
    }
}

// The numbers of a compact block from one on.
fn read_numbers(
    alloc: Global,
    heap: &Heap,
    block: Ref,
    from: u32,
    count: u32,
) -> Result<Vec<u32>, AllocError>
    requires small { from + count < 2 ^ 32 }
    requires kept { (all : ℕ) × HasBytes heap.now block.serial all × (4 * (from + count) ≤ all) }
    ensures len { IfOk result (λ numbers. length numbers.items ≡ count) }
    ensures each { IfOk result (λ numbers. (b : Block) → at heap.now block.serial ≡ Some b → (q : ℕ) → q < count
        → slice_get (words_of b) (from + q) ≡ Some (plain (slice_index numbers.items q))) }
{
    match heap.numbers(block) {
        Some(numbers) => Vec::from_slice(alloc, &numbers[from as usize..(from + count) as usize]),
        None => unreachable!(),
    }
}

// Sets the numbers of a compact block from one on.
fn put_numbers(heap: &mut Heap, block: Ref, from: u32, numbers: &[u32])
    requires small { from + length numbers.now < 2 ^ 32 }
    requires kept { (all : ℕ) × HasBytes heap.old block.serial all × (4 * (from + length numbers.now) ≤ all) }
    ensures writes { Writes slice_get heap.old heap.new block.serial from (length numbers.now)
        (λ q. Some (plain (slice_index numbers.now q))) }
    ensures outside { (n : ℕ) → outside heap.new n ≡ outside heap.old n }
{
    let mut i = from;
    for number in numbers {
        put_number(heap, block, i, *number);
        i += 1;
    }
}

// Sets number i of a compact block.
fn put_number(heap: &mut Heap, block: Ref, i: u32, number: u32)
    requires { (all : ℕ) × HasBytes heap.old block.serial all × (4 * i < all) }
    ensures writes { Writes slice_get heap.old heap.new block.serial i 1 (λ _. Some (plain number)) }
    ensures outside { (n : ℕ) → outside heap.new n ≡ outside heap.old n }
{
    match heap.set_word(block, i as usize, Word::Plain(number)) {
        Ok(()) => {}
        Err(_) => unreachable!(),
    }
}

// Copies bytes of one block over those of another, or over others of its own.
fn copy_bytes(
    alloc: Global,
    heap: &mut Heap,
    into: Ref,
    to: u32,
    out: Ref,
    from: u32,
    count: u32,
) -> Result<(), AllocError>
    requires small { from + count < 2 ^ 32 }
    requires small_to { to + count < 2 ^ 32 }
    requires kept { (all : ℕ) × HasBytes heap.old into.serial all × (to + count ≤ all) }
    ensures writes { OnOk result ((b : Block) → at heap.old out.serial ≡ Some b
        → Writes byte_of heap.old heap.new into.serial to count (λ q. byte_of (words_of b) (from + q))) }
    ensures outside { (n : ℕ) → outside heap.new n ≡ outside heap.old n }
    ensures err { OnErr result (heap.new ≡ heap.old) }
{
    let bytes = read_bytes(alloc, heap, out, from, count)?;
    put_bytes(heap, into, to, &bytes);
    Ok(())
}

// The same of the numbers of compact blocks.
fn copy_numbers(
    alloc: Global,
    heap: &mut Heap,
    into: Ref,
    to: u32,
    out: Ref,
    from: u32,
    count: u32,
) -> Result<(), AllocError>
    requires small { from + count < 2 ^ 32 }
    requires small_to { to + count < 2 ^ 32 }
    requires kept { (all : ℕ) × HasBytes heap.old into.serial all × (4 * (to + count) ≤ all) }
    requires source { (all : ℕ) × HasBytes heap.old out.serial all × (4 * (from + count) ≤ all) }
    ensures writes { OnOk result ((b : Block) → at heap.old out.serial ≡ Some b
        → Writes slice_get heap.old heap.new into.serial to count (λ q. slice_get (words_of b) (from + q))) }
    ensures outside { (n : ℕ) → outside heap.new n ≡ outside heap.old n }
    ensures err { OnErr result (heap.new ≡ heap.old) }
{
    let numbers = read_numbers(alloc, heap, out, from, count)?;
    put_numbers(heap, into, to, &numbers);
    Ok(())
}

// How many bytes an element of an array takes.
pub(crate) fn element_size(heap: &Heap, array: Ref) -> u32
    ensures { (size len : ℕ) → IsWhole heap.now array.serial size len → result ≡ size }
{
    match heap.kind_of(array) {
        Ok(Kind::Array { element, length: _ }) => element,
        _ => 0,
    }
}

// Copies the elements of an array without references over those of another from one on. They fit.
fn copy_elements(
    alloc: Global,
    heap: &mut Heap,
    target: Ref,
    from: u32,
    source: Ref,
) -> Result<(), AllocError>
    requires plain { (size : ℕ) × IsPlain heap.old target.serial size × IsPlain heap.old source.serial size }
    requires fits { from + (part_of heap.old source.serial).length ≤ (part_of heap.old target.serial).length }
    ensures takes { OnOk result (ArrayTakes heap.old heap.new target.serial from (elements heap.old source.serial)) }
    ensures elements { OnOk result (elements heap.new target.serial ≡ overwritten (elements heap.old target.serial) from
        (elements heap.old source.serial)) }
    ensures plain { OnOk result ((s size : ℕ) → IsPlain heap.old s size → IsPlain heap.new s size) }
    ensures outside { (n : ℕ) → outside heap.new n ≡ outside heap.old n }
    ensures err { OnErr result (heap.new ≡ heap.old) }
{
    let into = part(heap, target);
    let out = part(heap, source);
    let size = element_size(heap, into.array);
    if size == 1 {
        return copy_bytes(
            alloc,
            heap,
            into.array,
            into.from + from,
            out.array,
            out.from,
            out.length,
        );
    }
    let words = size / 4;
    copy_numbers(
        alloc,
        heap,
        into.array,
        (into.from + from) * words,
        out.array,
        out.from * words,
        out.length * words,
    )
}

// Whether there are as many elements from one on as are copied over them.
pub(crate) fn fits(heap: &Heap, target: Option<Ref>, from: u32, source: Option<Ref>) -> bool
    ensures { IsTrue result ↔ from + length_of heap.now (serial_of source) ≤ length_of heap.now (serial_of target) }
{
    let length = array_len(heap, target);
    from <= length && array_len(heap, source) <= length - from
}

/// Copies the elements of `source` over those of `target` from element `from` on, as if all were read before the first is
/// written: both may be parts of one array. They hold no references, as bytes, ints and bigs don't. Nil has no elements.
///
/// # Errors
/// `Bounds` exactly where `target` has fewer than so many elements from `from` on; `NoMemory`. Then the heap is as before.
pub fn copy_plain(
    alloc: Global,
    heap: &mut Heap,
    target: Option<Ref>,
    from: u32,
    source: Option<Ref>,
) -> Result<(), CopyFault>
    requires { (size : ℕ) × IsPlainOrNil heap.old size (serial_of target) × IsPlainOrNil heap.old size (serial_of source) }
    ensures elements { OnOk result (elements_or_none heap.new (serial_of target) ≡ overwritten
        (elements_or_none heap.old (serial_of target)) from (elements_or_none heap.old (serial_of source))) }
    ensures takes { OnOk result (TakesOrNone heap.old heap.new (serial_of target) from (elements_or_none heap.old (serial_of source))) }
    ensures plain { (s size : ℕ) → IsPlain heap.old s size → IsPlain heap.new s size }
    ensures outside { (n : ℕ) → outside heap.new n ≡ outside heap.old n }
    ensures bounds { IfErr result (λ e. e ≡ CopyFault.Bounds → length_of heap.old (serial_of target) < from + length_of heap.old
        (serial_of source)) }
    ensures past { length_of heap.old (serial_of target) < from + length_of heap.old (serial_of source) → result ≡ Err CopyFault.Bounds }
    ensures held { IfErr result (λ e. e ≡ CopyFault.Full → ⊥) }
    ensures err { OnErr result (heap.new ≡ heap.old) }
{
    if !fits(heap, target, from, source) {
        return Err(CopyFault::Bounds);
    }
    match target {
        Some(into) => match source {
            Some(out) => match copy_elements(alloc, heap, into, from, out) {
                Ok(()) => Ok(()),
                Err(_) => Err(CopyFault::NoMemory),
            },
            None => Ok(()),
        },
        None => Ok(()),
    }
}
