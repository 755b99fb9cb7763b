ghost use Rattle.std.specs.Prelude.{◌≡◌, ◌↔◌, ◌+◌, ◌*◌, ◌/◌, ◌<◌, ◌≤◌, ◌^◌, ℕ, List, Bool, [], ◌∷◌, map, take, drop, length, true, false};
ghost use Rattle.std.specs.Prelude.{Some};
ghost use Rattle.std.specs.Prelude.{IsTrue};
ghost use Rattle.std.specs.Prelude.{IfOk, IfErr, IsErr, OnOk, OnErr};
ghost use Rattle.ref_heap.specs.Words.{Cell, cell_of, naming, wide, name_of, refers as refers_to};
ghost use Rattle.ref_heap.specs.Store.{Block, AreHeld, at, count, outside, one, words_of};
ghost use Rattle.ref_heap.specs.Answers.{most};
ghost use Rattle.dis_values.specs.References.{HaveRoom, Holds, HasWords, CanPut, CanCopy, IsHoldFault, Puts, Moves, IsMarked, CopiesHeld};
ghost use Rattle.dis_values.specs.References.{naming_all};
ghost use Rattle.dis_values.specs.References.{IsMarkedOrNil, CopiesOrNone, naming_or_none};
ghost use Rattle.dis_values.specs.Making.{serial_of};
ghost use Rattle.dis_values.specs.Arrays.{elements, length_of, part_of};

use crate::arrays::part;
use crate::copies::{CopyFault, element_size, fits};
use ref_heap::{Heap, HeapFault, Ref, Word};
use std::alloc::{AllocError, Global};

// The words of a block from one on.
fn read_words(
    alloc: Global,
    heap: &Heap,
    block: Ref,
    from: u32,
    count: u32,
) -> Result<Vec<Word>, AllocError>
    requires small { from + count < 2 ^ 32 }
    requires there { HasWords heap.now block.serial (from + count) }
    ensures { IfOk result (λ words. (b : Block) → at heap.now block.serial ≡ Some b
        → map cell_of words.items ≡ take count (drop from (words_of b))) }
{
    let mut words = Vec::with_capacity(alloc, count as usize)?;
    for i in 0..count {
        match heap.get(block, (from + i) as usize) {
            Ok(word) => words.push(word)?,
            Err(_) => unreachable!(),
        }
    }
    Ok(words)
}

// Whether a word is a reference to the block of this serial.
fn refers(word: &Word, serial: u64) -> bool
    ensures { result ≡ refers_to serial (cell_of word.now) }
{
    match word.reference() {
        Some(r) => r.serial == serial,
        None => false,
    }
}

// How many of these words are references to the block of this serial.
fn times(words: &[Word], serial: u64) -> usize
    ensures { result ≡ naming (map cell_of words.now) serial }
{
    let mut times = 0;
    for word in words {
        if refers(word, serial) {
            times += 1;
        }
    }
    times
}

// How many references to a block there are, and none where it isn't live.
fn count_of(heap: &Heap, r: Ref) -> u64
    ensures { result ≡ count (at heap.now) r.serial }
{
    match heap.count_of(r) {
        Ok(count) => count,
        Err(_) => 0,
    }
}

// Whether a block may have a reference more for each of these words that names it.
fn may_be_held(heap: &Heap, words: &[Word], r: Ref) -> bool
    ensures { IsTrue result ↔ count (at heap.now) r.serial + naming (map cell_of words.now) r.serial ≤ most }
{
    let room = u64::MAX - count_of(heap, r);
    words.len() as u64 <= room || times(words, r.serial) as u64 <= room
}

// The same of the block that a word names, if it names one.
fn named_may_be_held(heap: &Heap, words: &[Word], word: &Word) -> bool
    ensures yes { result ≡ true → (n : ℕ) → name_of (cell_of word.now) ≡ Some n
        → count (at heap.now) n + naming (map cell_of words.now) n ≤ most }
    ensures no { result ≡ false → (n : ℕ) × (most < count (at heap.now) n + naming (map cell_of words.now) n) }
{
    match word.reference() {
        Some(r) => may_be_held(heap, words, r),
        None => true,
    }
}

// Whether each block that these words name may have a reference more for each of them.
fn may_all_be_held(heap: &Heap, words: &[Word]) -> bool
    ensures yes { result ≡ true → (n : ℕ) → 0 < naming (map cell_of words.now) n
        → count (at heap.now) n + naming (map cell_of words.now) n ≤ most }
    ensures no { result ≡ false → (n : ℕ) × (most < count (at heap.now) n + naming (map cell_of words.now) n) }
{
    for word in words {
        if !named_may_be_held(heap, words, word) {
            return false;
        }
    }
    true
}

// One more reference to a block.
fn hold_one(heap: &mut Heap, r: Ref)
    requires { HaveRoom heap.old (one r.serial) }
    ensures held { Holds heap.old heap.new (one r.serial) }
    ensures outside { (n : ℕ) → outside heap.new n ≡ outside heap.old n + one r.serial n }
{
    match heap.hold(r) {
        Ok(()) => {}
        Err(_) => unreachable!(),
    }
}

// One more reference to each block for each word that names it.
fn hold_words(heap: &mut Heap, words: &[Word])
    requires { HaveRoom heap.old (naming (map cell_of words.now)) }
    ensures held { Holds heap.old heap.new (naming (map cell_of words.now)) }
    ensures outside { (n : ℕ) → outside heap.new n ≡ outside heap.old n + naming (map cell_of words.now) n }
{
    for word in words {
        match word.reference() {
            Some(r) => hold_one(heap, r),
            None => {}
        }
    }
}

// Sets word i of a block.
fn put_word(heap: &mut Heap, block: Ref, i: u32, word: Word)
    requires there { CanPut heap.old block.serial i (cell_of word ∷ []) }
    requires held { AreHeld heap.old (naming (cell_of word ∷ [])) }
    ensures puts { Puts heap.old heap.new block.serial i (cell_of word ∷ []) }
{
    match heap.set_word(block, i as usize, word) {
        Ok(()) => {}
        Err(_) => unreachable!(),
    }
}

// Sets the words of a block from one on.
fn put_words(heap: &mut Heap, block: Ref, from: u32, words: &[Word])
    requires small { from + length words.now < 2 ^ 32 }
    requires there { CanPut heap.old block.serial from (map cell_of words.now) }
    requires held { AreHeld heap.old (naming (map cell_of words.now)) }
    ensures puts { Puts heap.old heap.new block.serial from (map cell_of words.now) }
{
    let mut i = from;
    for word in words {
        put_word(heap, block, i, *word);
        i += 1;
    }
}

// Puts words into a block from one on, holds what they name, and drops what those named that stood there.
fn move_words(heap: &mut Heap, block: Ref, from: u32, words: &[Word], given: &[Word])
    requires small { from + length words.now < 2 ^ 32 }
    requires room { HaveRoom heap.old (naming (map cell_of words.now)) }
    requires there { CanPut heap.old block.serial from (map cell_of words.now) }
    requires stood { (b : Block) → at heap.old block.serial ≡ Some b
        → map cell_of given.now ≡ take (length words.now) (drop from (words_of b)) }
    ensures moves { Moves heap.old heap.new block.serial from (map cell_of words.now) }
    ensures outside { (n : ℕ) → outside heap.new n ≡ outside heap.old n }
{
    hold_words(heap, words);
    put_words(heap, block, from, words);
    heap.drop_words(given);
}

// Copies words of one block over those of another, or over others of its own.
fn copy_words(
    alloc: Global,
    heap: &mut Heap,
    into: Ref,
    to: u32,
    out: Ref,
    from: u32,
    amount: u32,
) -> Result<(), HeapFault>
    requires small { from + amount < 2 ^ 32 }
    requires small_to { to + amount < 2 ^ 32 }
    requires there { CanCopy heap.old into.serial to out.serial from amount }
    ensures moves { OnOk result ((b : Block) → at heap.old out.serial ≡ Some b
        → Moves heap.old heap.new into.serial to (take amount (drop from (words_of b)))) }
    ensures outside { OnOk result ((n : ℕ) → outside heap.new n ≡ outside heap.old n) }
    ensures fault { IfErr result (λ e. (b : Block) → at heap.old out.serial ≡ Some b
        → IsHoldFault heap.old (naming (take amount (drop from (words_of b)))) e) }
    ensures full { (b : Block) → at heap.old out.serial ≡ Some b → (n : ℕ)
        → 0 < naming (take amount (drop from (words_of b))) n
        → most < count (at heap.old) n + naming (take amount (drop from (words_of b))) n → IsErr result }
    ensures err { OnErr result (heap.new ≡ heap.old) }
{
    heap.stands();
    let given = read_words(alloc, heap, into, to, amount)?;
    let copied = read_words(alloc, heap, out, from, amount)?;
    if !may_all_be_held(heap, &copied) {
        return Err(HeapFault::Full);
    }
    move_words(heap, into, to, &copied, &given);
    Ok(())
}

// Copies the elements of an array over those of another from one on. They fit.
fn copy_held(
    alloc: Global,
    heap: &mut Heap,
    target: Ref,
    from: u32,
    source: Ref,
) -> Result<(), HeapFault>
    requires marked { (size : ℕ) × (marks : List Bool) × IsMarked heap.old target.serial size marks
        × IsMarked heap.old source.serial size marks }
    requires fits { from + (part_of heap.old source.serial).length ≤ (part_of heap.old target.serial).length }
    ensures copies { OnOk result (CopiesHeld heap.old heap.new target.serial from (elements heap.old source.serial)) }
    ensures outside { OnOk result ((n : ℕ) → outside heap.new n ≡ outside heap.old n) }
    ensures fault { IfErr result (IsHoldFault heap.old (naming_all (elements heap.old source.serial))) }
    ensures full { (n : ℕ) → 0 < naming_all (elements heap.old source.serial) n
        → most < count (at heap.old) n + naming_all (elements heap.old source.serial) n → IsErr result }
    ensures err { OnErr result (heap.new ≡ heap.old) }
{
    let into = part(heap, target);
    let out = part(heap, source);
    let size = element_size(heap, into.array);
    let words = size / 4;
    copy_words(
        alloc,
        heap,
        into.array,
        (into.from + from) * words,
        out.array,
        out.from * words,
        out.length * words,
    )
}

// The fault of a copy for one of the heap.
fn as_copy_fault(fault: HeapFault) -> CopyFault
    ensures full { result ≡ CopyFault.Full → fault ≡ HeapFault.Full }
    ensures fits { result ≡ CopyFault.Bounds → ⊥ }
{
    match fault {
        HeapFault::Full => CopyFault::Full,
        _ => CopyFault::NoMemory,
    }
}

/// Copies the elements of `source` over those of `target` from element `from` on, as if all were read before the first is
/// written: both may be parts of one array. Each block that the copied ones name has a reference more for each time, and
/// then the references in those that stood there are given away in one step; `lost` lists the open files that went. Nil has
/// no elements.
///
/// # Errors
/// `Bounds` exactly where `target` has fewer than so many elements from `from` on; `Full` only where a block would have more
/// than 18,446,744,073,709,551,615 references; `NoMemory`. Then the heap is as before.
pub fn copy_references(
    alloc: Global,
    heap: &mut Heap,
    target: Option<Ref>,
    from: u32,
    source: Option<Ref>,
) -> Result<(), CopyFault>
    requires { (size : ℕ) × (marks : List Bool) × IsMarkedOrNil heap.old size marks (serial_of target)
        × IsMarkedOrNil heap.old size marks (serial_of source) }
    ensures copies { OnOk result (CopiesOrNone heap.old heap.new (serial_of target) from (serial_of source)) }
    ensures outside { OnOk result ((n : ℕ) → outside heap.new n ≡ outside heap.old n) }
    ensures bounds { IfErr result (λ e. e ≡ CopyFault.Bounds
        → length_of heap.old (serial_of target) < from + length_of heap.old (serial_of source)) }
    ensures past { length_of heap.old (serial_of target) < from + length_of heap.old (serial_of source)
        → result ≡ Err CopyFault.Bounds }
    ensures held { IfErr result (λ e. e ≡ CopyFault.Full
        → (n : ℕ) × (most < count (at heap.old) n + naming_or_none heap.old (serial_of source) n)) }
    ensures full { (t : ℕ) → serial_of target ≡ Some t → (n : ℕ) → 0 < naming_or_none heap.old (serial_of source) n
        → most < count (at heap.old) n + naming_or_none heap.old (serial_of source) n → IsErr result }
    ensures err { OnErr result (heap.new ≡ heap.old) }
{
    if !fits(heap, target, from, source) {
        return Err(CopyFault::Bounds);
    }
    match target {
        Some(into) => match source {
            Some(out) => match copy_held(alloc, heap, into, from, out) {
                Ok(()) => Ok(()),
                Err(fault) => Err(as_copy_fault(fault)),
            },
            None => Ok(()),
        },
        None => Ok(()),
    }
}
