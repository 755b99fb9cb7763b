ghost use Rattle.std.specs.Prelude.{◌≡◌, ◌+◌, ◌*◌, ◌<◌, ◌≤◌, ◌^◌, ◌∷◌, [], ℕ, List, false, map, slice_range, replicate, Some, IfOk};
ghost use Rattle.std.specs.Prelude.{IfErr, IfSome, IfNone, IsErr, OnErr};
ghost use Rattle.ref_heap.specs.Words.{cell_of, wide, compact};
ghost use Rattle.ref_heap.specs.Store.{Block, at, count, fresh, words_of};
ghost use Rattle.ref_heap.specs.Answers.{most, IsRefFault};
ghost use Rattle.dis_values.specs.Making.{Makes, IsMakeFault, serial_of};
ghost use Rattle.dis_values.specs.Arrays.{IsArray, IsElement, IsWithin, any_marked, words_for, zeroed, zeroed_word, zeroed_words, part_of, length_of, elements, first_name, Slices};
ghost use Rattle.dis_values.specs.Bytes.{IsPlain};
ghost use Rattle.dis_values.specs.References.{IsMarked};
ghost use Rattle.std.specs.Prelude.{Bool, true, ◌%◌};

use ref_heap::{Heap, HeapFault, Kind, Ref, Word, Words};
use std::alloc::{AllocError, Global};

/// A part of an array: `length` elements from element `from` on.
#[derive(Clone, Copy, Debug, PartialEq, Eq)]
pub struct Span {
    pub array: Ref,
    pub from: u32,
    pub length: u32,
}

// Whether any word is marked.
fn has_mark(marks: &[bool]) -> bool
    ensures { result ≡ any_marked marks.now }
{
    let mut rest = marks;
    while let [mark, behind @ ..] = rest {
        if *mark {
            return true;
        }
        rest = behind;
    }
    false
}

// Word j of a zeroed array.
fn zero_word(size: u32, marks: &[bool], j: u32) -> Word
    requires some { 0 < size }
    requires small { j < 67108864 }
    ensures { cell_of result ≡ zeroed_word size marks.now j }
{
    let byte = 4 * j % size;
    let marked = match marks.get((byte / 4) as usize) {
        Some(marked) => *marked,
        None => false,
    };
    if byte % 4 == 0 && marked {
        Word::Refer(None)
    } else {
        Word::Plain(0)
    }
}

fn zero_words(alloc: Global, size: u32, marks: &[bool], count: u32) -> Result<Vec<Word>, AllocError>
    requires some { 0 < count → 0 < size }
    requires small { count ≤ 67108864 }
    ensures { IfOk result (λ words. map cell_of words.items ≡ zeroed_words size marks.now 0 count) }
{
    let mut words = Vec::with_capacity(alloc, count as usize)?;
    for j in 0..count {
        words.push(zero_word(size, marks, j))?;
    }
    Ok(words)
}

/// A zeroed array of `length` elements of `size` bytes, whose reference words are marked.
///
/// # Errors
/// 94 `Full` exactly where all serials are used; `NoMemory`. Then the heap is as before.
pub fn new_array(
    alloc: Global,
    heap: &mut Heap,
    size: u32,
    marks: &[bool],
    length: u32,
) -> Result<Ref, HeapFault>
    requires bytes { size * length ≤ 268435456 }
    requires within { IsWithin marks.now size }
    ensures ok { IfOk result (λ r. Makes heap.old heap.new r.serial (fresh (Kind.Array size length) (zeroed size marks.now length))) }
    ensures array { IfOk result (λ r. IsArray heap.new r.serial) }
    ensures plain { any_marked marks.now ≡ false → IfOk result (λ r. IsPlain heap.new r.serial size) }
    ensures marked { any_marked marks.now ≡ true → size % 4 ≡ 0 → IfOk result (λ r. IsMarked heap.new r.serial size marks.now) }
    ensures fault { IfErr result (IsMakeFault heap.old) }
    ensures full { heap.old.made ≡ most → IsErr result }
    ensures err { OnErr result (heap.new ≡ heap.old) }
{
    let words = array_words(alloc, size, marks, length)?;
    heap.stands();
    heap.add(
        Kind::Array {
            element: size,
            length,
        },
        words,
    )
}

fn array_words(alloc: Global, size: u32, marks: &[bool], length: u32) -> Result<Words, AllocError>
    requires { size * length ≤ 268435456 }
    ensures { IfOk result (λ words. words ≡ zeroed size marks.now length) }
{
    let count = (size * length + 3) / 4;
    if has_mark(marks) {
        let words = zero_words(alloc, size, marks, count)?;
        return Ok(Words::wide(words));
    }
    let numbers = vec![in alloc; 0; count as usize]?;
    Ok(Words::compact(numbers))
}

/// The part of an array that a reference to an array or a slice stands for.
pub fn part(heap: &Heap, array: Ref) -> Span
    ensures array { result.array.serial ≡ (part_of heap.now array.serial).array }
    ensures from { result.from ≡ (part_of heap.now array.serial).from }
    ensures length { result.length ≡ (part_of heap.now array.serial).length }
{
    match heap.kind_of(array) {
        Ok(Kind::Array { element: _, length }) => Span {
            array,
            from: 0,
            length,
        },
        Ok(Kind::Slice { from, length }) => Span {
            array: sliced(heap, array),
            from,
            length,
        },
        _ => Span {
            array,
            from: 0,
            length: 0,
        },
    }
}

// The block that the first word refers to.
fn sliced(heap: &Heap, slice: Ref) -> Ref
    ensures { (b : Block) → at heap.now slice.serial ≡ Some b → result.serial ≡ first_name slice.serial (words_of b) }
{
    match heap.get(slice, 0) {
        Ok(word) => match word.reference() {
            Some(r) => r,
            None => slice,
        },
        Err(_) => slice,
    }
}

/// How many elements an array or a slice has, and nil has none.
pub fn array_len(heap: &Heap, array: Option<Ref>) -> u32
    ensures { result ≡ length_of heap.now (serial_of array) }
{
    match array {
        Some(r) => part(heap, r).length,
        None => 0,
    }
}

/// The elements of an array or a slice from `from` on to `to`, as a slice of the array itself. The caller's reference stays
/// the caller's.
///
/// # Errors
/// 94 `Full` exactly where all serials are used or the count of the array is 18,446,744,073,709,551,615; `NoMemory`. Then
/// the heap is as before.
pub fn slice(heap: &mut Heap, array: Ref, from: u32, to: u32) -> Result<Ref, HeapFault>
    requires array { IsArray heap.old array.serial }
    requires rising { from ≤ to }
    requires within { to ≤ (part_of heap.old array.serial).length }
    ensures elements { IfOk result (λ r. elements heap.new r.serial ≡ slice_range (elements heap.old array.serial) from to) }
    ensures array { IfOk result (λ r. IsArray heap.new r.serial) }
    ensures plain { IfOk result (λ r. (size : ℕ) → IsPlain heap.old array.serial size → IsPlain heap.new r.serial size) }
    ensures marked { IfOk result (λ r. (size : ℕ) (marks : List Bool) → IsMarked heap.old array.serial size marks
        → IsMarked heap.new r.serial size marks) }
    ensures ok { IfOk result (λ r. Slices heap.old heap.new (part_of heap.old array.serial) from to r.serial) }
    ensures fault { IfErr result (IsRefFault heap.old (part_of heap.old array.serial).array) }
    ensures full { heap.old.made ≡ most → IsErr result }
    ensures full_count { count (at heap.old) (part_of heap.old array.serial).array ≡ most → IsErr result }
    ensures err { OnErr result (heap.new ≡ heap.old) }
{
    heap.stands();
    let whole = part(heap, array);
    heap.add_ref(
        Kind::Slice {
            from: whole.from + from,
            length: to - from,
        },
        whole.array,
    )
}

/// Where element `i` of an array or a slice begins: the array itself, and a byte in it. None exactly where there is no such
/// element.
pub fn element(heap: &Heap, array: Ref, i: u32) -> Option<(Ref, u32)>
    requires { IsArray heap.now array.serial }
    ensures found { IfSome result (λ place. IsElement heap.now array.serial i place.0.serial place.1) }
    ensures none { IfNone result ((part_of heap.now array.serial).length ≤ i) }
    ensures some { IfSome result (λ _. i < (part_of heap.now array.serial).length) }
{
    let whole = part(heap, array);
    if i >= whole.length {
        return None;
    }
    match heap.kind_of(whole.array) {
        Ok(Kind::Array { element, length: _ }) => Some((whole.array, element * (whole.from + i))),
        _ => unreachable!(),
    }
}
