use dis_values::new_array;
use ref_heap::{Heap, HeapFault, Ref};
use std::alloc::Global;

/// What is seen of a heap: how many blocks were made, and the count and the words of one of them.
fn seen(heap: &Heap, r: Ref) -> (u64, Option<u64>, Option<usize>) {
    (heap.made(), heap.count_of(r).ok(), heap.len_of(r).ok())
}

/// A record, once more where the first try is refused, and whether the heap was then as before.
fn record(heap: &mut Heap, known: Ref) -> Result<bool, HeapFault> {
    let before = seen(heap, known);
    if heap.alloc(&[false, true]).is_ok() {
        return Ok(true);
    }
    let same = seen(heap, known) == before;
    heap.alloc(&[false, true])?;
    Ok(same)
}

/// The same of a block for an open file.
fn file(heap: &mut Heap, known: Ref) -> Result<bool, HeapFault> {
    let before = seen(heap, known);
    if heap.alloc_fd(3).is_ok() {
        return Ok(true);
    }
    let same = seen(heap, known) == before;
    heap.alloc_fd(3)?;
    Ok(same)
}

/// The same of an array.
fn array(alloc: Global, heap: &mut Heap, known: Ref, length: u32) -> Result<bool, HeapFault> {
    if length > 1000 {
        return Ok(false);
    }
    let before = seen(heap, known);
    if new_array(alloc, heap, 4, &[], length).is_ok() {
        return Ok(true);
    }
    let same = seen(heap, known) == before;
    new_array(alloc, heap, 4, &[], length)?;
    Ok(same)
}

/// The first record, which may take two tries.
fn first(heap: &mut Heap) -> Result<Ref, HeapFault> {
    match heap.alloc(&[true]) {
        Ok(r) => Ok(r),
        Err(_) => heap.alloc(&[true]),
    }
}

/// So many blocks of each kind, and whether the heap was as before wherever want of memory refused one.
pub fn refused(alloc: Global, heap: &mut Heap, count: u32) -> Result<String, HeapFault> {
    let known = first(heap)?;
    let mut same = true;
    for i in 0..count {
        same &= record(heap, known)?;
        same &= file(heap, known)?;
        same &= array(alloc, heap, known, i)?;
    }
    match format!(in alloc; "{same}") {
        Ok(text) => Ok(text),
        Err(_) => Ok(format!(in alloc; "{same}")?),
    }
}
