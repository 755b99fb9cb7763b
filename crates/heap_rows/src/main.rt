//! Rows of the heap that are written out by hand: a test of `ref_heap` and `dis_values` whose answers are data.
//!
//! Each line of the input is the name of a row and a number, and each line of the output what the calls of this row
//! answered.
#![tactic(auto)]

mod frame;
mod refusals;

use crate::frame::{Frame, put};
use crate::refusals::refused;
use dis_values::{
    array_len, byte_at, code_at, element, new_array, new_text, part, set_byte, slice, text_len,
};
use inf_text::Text;
use ref_heap::{Heap, HeapFault, Ref};
use std::alloc::{AllocError, Global};
use std::io;

/// A refusal's number, 0 where the call went on, and 1 for want of memory.
fn number<T: Drop>(answer: Result<T, HeapFault>) -> u8 {
    match answer {
        Ok(_) => 0,
        Err(fault) => fault.number().unwrap_or(1),
    }
}

/// What a call of a block that is gone answers.
fn dead(frame: &mut Frame, r: Ref) -> (u8, u8, u8, u8) {
    let got = number(frame.heap().get(r, 0));
    let set = number(frame.put(r, 0, 7));
    let held = number(frame.hold(r));
    let dropped = frame
        .drop_dead(r)
        .map_or(0, |fault| fault.number().unwrap_or(1));
    (got, set, held, dropped)
}

/// A block that is dropped, and its slot used again.
fn dropped(alloc: Global, frame: &mut Frame) -> Result<String, HeapFault> {
    let r = frame.alloc(&[false, true])?;
    let freed = frame.drop_last()?;
    let before = dead(frame, r);
    let again = frame.alloc(&[false])?;
    let after = dead(frame, r);
    Ok(format!(in alloc;
        "{freed:?} {before:?} {after:?} {} {}",
        r.slot == again.slot,
        r.serial == again.serial
    )?)
}

/// Words that fit, and words that don't.
fn fitting(alloc: Global, frame: &mut Frame) -> Result<String, HeapFault> {
    let r = frame.alloc(&[false, true])?;
    frame.hold(r)?;
    let pointer = number(frame.store(r, 0));
    let data = number(frame.put(r, 1, 5));
    let outside = number(frame.put(r, 2, 5));
    let plain = number(frame.put(r, 0, 5));
    let word = frame.heap().get(r, 0)?;
    Ok(format!(in alloc; "{pointer} {data} {outside} {plain} {word:?}")?)
}

/// A block with two references.
fn twice(alloc: Global, frame: &mut Frame) -> Result<String, HeapFault> {
    let r = frame.alloc(&[])?;
    frame.hold(r)?;
    let first = frame.drop_last()?;
    let second = frame.drop_last()?;
    Ok(format!(in alloc; "{first:?} {second:?}")?)
}

/// A block that two others keep, and that is for an open file.
fn shared(alloc: Global, frame: &mut Frame) -> Result<String, HeapFault> {
    let a = frame.alloc(&[true])?;
    let b = frame.alloc(&[true])?;
    let file = frame.alloc_fd(7)?;
    frame.hold(file)?;
    frame.store(a, 0)?;
    frame.store(b, 0)?;
    frame.drop_last()?;
    let kept = frame.heap().fd_of(file)?;
    frame.drop_last()?;
    let lost = frame.heap().lost().first().copied();
    let gone = number(frame.heap().fd_of(file));
    Ok(format!(in alloc; "{kept:?} {lost:?} {gone}")?)
}

/// A block that is used again as soon as it was made.
fn renewed(alloc: Global, frame: &mut Frame) -> Result<String, HeapFault> {
    let (old, new) = frame.renew(&[false])?;
    let got = number(frame.heap().get(old, 0));
    Ok(format!(in alloc;
        "{} {} {got}",
        old.slot == new.slot,
        old.serial == new.serial
    )?)
}

/// Open files that go in one step with the frame.
fn files(alloc: Global, frame: &mut Frame) -> Result<String, HeapFault> {
    for number in [9, 4, 6] {
        frame.alloc_fd(number)?;
    }
    frame.drop_all();
    Ok(format!(in alloc; "{:?}", frame.heap().lost())?)
}

/// A list of so many cells, and its drop.
fn long_list(alloc: Global, frame: &mut Frame, cells: u32) -> Result<String, HeapFault> {
    frame.push_nil()?;
    for i in 0..cells {
        frame.cons(alloc, i)?;
    }
    let length = frame.list_len();
    let freed = frame.drop_last()?;
    Ok(format!(in alloc; "{length} {freed:?}")?)
}

/// A text, a part of it, and a character that grew in place.
fn texts(alloc: Global, heap: &mut Heap) -> Result<String, HeapFault> {
    let mut text = Text::new(alloc);
    text.push_all(&['l', 'i', 'm', 'b', 'o'])?;
    let r = new_text(alloc, heap, &text)?;
    let len = text_len(heap, Some(r));
    let code = code_at(heap, Some(r), 4);
    let past = code_at(heap, Some(r), 5);
    let none = text_len(heap, None);
    Ok(format!(in alloc; "{len} {code:?} {past:?} {none}")?)
}

/// An array of so many bytes, a slice of it, and a slice of the slice.
fn arrays(alloc: Global, heap: &mut Heap, bytes: u32) -> Result<String, HeapFault> {
    if bytes > 268435456 {
        return Err(HeapFault::Full);
    }
    let whole = new_array(alloc, heap, 1, &[], bytes)?;
    let length = array_len(heap, Some(whole));
    if length < 5 {
        return Err(HeapFault::OutOfBlock);
    }
    let some = slice(heap, whole, 2, length)?;
    let some_length = array_len(heap, Some(some));
    if some_length < 3 {
        return Err(HeapFault::OutOfBlock);
    }
    let two = slice(heap, some, 1, 3)?;
    let words = heap.len_of(whole)?;
    let span = part(heap, two);
    let none = array_len(heap, None);
    Ok(format!(in alloc;
        "{length} {some_length} {} {none} {words} {} {}",
        span.length,
        span.from,
        span.array.serial == whole.serial
    )?)
}

/// An array of so many ints, 1, 2, 3 and on, whose elements from the second on are a slice; the first of the slice becomes 9.
fn shown(alloc: Global, heap: &mut Heap, ints: u32) -> Result<String, HeapFault> {
    if ints > 1000 {
        return Err(HeapFault::Full);
    }
    let whole = new_array(alloc, heap, 4, &[], ints)?;
    let length = array_len(heap, Some(whole));
    if length < 2 {
        return Err(HeapFault::OutOfBlock);
    }
    let some = slice(heap, whole, 1, length)?;
    let place = element(heap, some, 0);
    for i in 0..ints {
        put(heap, whole, i, i + 1)?;
    }
    if let Some((array, byte)) = place {
        put(heap, array, byte / 4, 9)?;
    }
    let first = heap.get(whole, 0)?;
    let second = heap.get(whole, 1)?;
    let length = array_len(heap, Some(some));
    Ok(format!(in alloc; "{first:?} {second:?} {length}")?)
}

/// So many bytes of 7, of which one becomes 255, and a write past them.
fn bytes(alloc: Global, heap: &mut Heap, length: u32) -> Result<String, HeapFault> {
    if length > 255 {
        return Err(HeapFault::Full);
    }
    let array = new_array(alloc, heap, 1, &[], length)?;
    for i in 0..length {
        set_byte(heap, array, i, 7);
    }
    let set = set_byte(heap, array, 5, 255);
    let past = set_byte(heap, array, length, 255);
    let word = heap.get(array, 1)?;
    let last = byte_at(heap, array, 5);
    let none = byte_at(heap, array, length);
    Ok(format!(in alloc; "{set} {past} {word:?} {last:?} {none:?}")?)
}

/// What a row says, or why it has no answer.
fn told(alloc: Global, row: Result<String, HeapFault>) -> Result<String, AllocError> {
    match row {
        Ok(text) => Ok(text),
        Err(fault) => format!(in alloc; "{fault:?}"),
    }
}

/// The row of this name, for so many elements where it asks for a number.
fn row(
    alloc: Global,
    frame: &mut Frame,
    heap: &mut Heap,
    name: &str,
    count: u32,
) -> Result<String, HeapFault> {
    match name {
        "refused" => refused(alloc, heap, count),
        "dropped" => dropped(alloc, frame),
        "fitting" => fitting(alloc, frame),
        "twice" => twice(alloc, frame),
        "shared" => shared(alloc, frame),
        "renewed" => renewed(alloc, frame),
        "files" => files(alloc, frame),
        "list" => long_list(alloc, frame, count),
        "texts" => texts(alloc, heap),
        "arrays" => arrays(alloc, heap, count),
        "shown" => shown(alloc, heap, count),
        "bytes" => bytes(alloc, heap, count),
        _ => Err(HeapFault::OutOfBlock),
    }
}

fn main(rt: HostRuntime) -> io::Result<()> {
    let alloc = rt.alloc();
    let mut frame = Frame::new(alloc)?;
    let mut heap = Heap::new(alloc)?;
    for line in rt.lines(alloc) {
        let line = line?;
        let (name, count) = line.as_str().split_once(' ').unwrap_or(("", ""));
        let count = count.parse::<u32>().unwrap_or(0);
        let told = told(alloc, row(alloc, &mut frame, &mut heap, name, count))?;
        println!(rt; "{name} {told}")?;
    }
    Ok(())
}
