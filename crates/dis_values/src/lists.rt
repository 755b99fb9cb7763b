ghost use Rattle.std.specs.Prelude.{◌≡◌, ◌+◌, ◌<◌, ◌∷◌, [], ℕ, List, length, map, slice_get, Some, IfOk, IfErr, IsErr, OnOk, OnErr};
ghost use Rattle.ref_heap.specs.Words.{Cell as Word32, cell_of, naming, refer, wide};
ghost use Rattle.ref_heap.specs.Store.{AreHeld, fresh, one, outside, with_new};
ghost use Rattle.ref_heap.specs.Answers.{most, as_cell, found};
ghost use Rattle.dis_values.specs.Making.{IsMakeFault, serial_of};
ghost use Rattle.dis_values.specs.Lists.{IsList};

use ref_heap::{Heap, HeapFault, Kind, Ref, Word, Words};
use std::alloc::{AllocError, Global};

fn cell_words(alloc: Global, element: &[Word], tail: Option<Ref>) -> Result<Words, AllocError>
    ensures { IfOk result (λ words. words ≡ wide (refer (serial_of tail) ∷ map cell_of element.now)) }
{
    let mut words = vec![in alloc; Word::Refer(tail)]?;
    words.extend_from_slice(element)?;
    Ok(Words::wide(words))
}

/// The list with these words of an element before `tail`. The caller gives away the references in `element` and `tail`.
///
/// # Errors
/// 94 `Full` exactly where all serials are used; `NoMemory`. Then the heap is as before.
pub fn cons(
    alloc: Global,
    heap: &mut Heap,
    element: &[Word],
    tail: Option<Ref>,
) -> Result<Ref, HeapFault>
    requires { AreHeld heap.old (naming (refer (serial_of tail) ∷ map cell_of element.now)) }
    ensures list { IfOk result (λ r. (xs : List (List Word32)) → IsList heap.old (serial_of tail) xs → IsList heap.new (Some r.serial) (map cell_of element.now ∷ xs)) }
    ensures ok { OnOk result (heap.new ≡ with_new heap.old (fresh Kind.Cell (wide (refer (serial_of tail) ∷ map cell_of element.now)))) }
    ensures serial { IfOk result (λ r. r.serial ≡ heap.old.made) }
    ensures outside { IfOk result (λ r. (n : ℕ) → outside heap.new n + naming (refer (serial_of tail) ∷ map cell_of element.now) n ≡ outside heap.old n + one r.serial n) }
    ensures fault { IfErr result (IsMakeFault heap.old) }
    ensures full { heap.old.made ≡ most → IsErr result }
    ensures err { OnErr result (heap.new ≡ heap.old) }
{
    let words = cell_words(alloc, element, tail)?;
    heap.stands();
    heap.add(Kind::Cell, words)
}

/// Word `i` of the first element of a list.
///
/// # Errors
/// 93 `OutOfBlock` exactly where the element has no such word.
pub fn head(heap: &Heap, list: Ref, i: u32) -> Result<Word, HeapFault>
    requires { i < 4294967295 }
    ensures { (x : List Word32) (xs : List (List Word32)) → IsList heap.now (Some list.serial) (x ∷ xs) → as_cell result ≡ found (slice_get x i) }
{
    heap.get(list, i as usize + 1)
}

/// The rest of a list behind its first element: none where that is nil.
pub fn tail(heap: &Heap, list: Ref) -> Option<Ref>
    ensures { (x : List Word32) (xs : List (List Word32)) → IsList heap.now (Some list.serial) (x ∷ xs) → IsList heap.now (serial_of result) xs }
{
    match heap.get(list, 0) {
        Ok(word) => word.reference(),
        Err(_) => None,
    }
}

/// How many elements a list has, and nil has none.
pub fn list_len(heap: &Heap, list: Option<Ref>) -> u64
    ensures { (xs : List (List Word32)) → IsList heap.now (serial_of list) xs → result ≡ length xs }
{
    heap.stands();
    let made = heap.made();
    let mut rest = list;
    for i in 0..made {
        match rest {
            Some(cell) => rest = tail(heap, cell),
            None => return i,
        }
    }
    made
}
