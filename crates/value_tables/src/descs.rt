//! Types of the machine, by their size and the places of their references.

ghost use Rattle.std.specs.Prelude.{◌≡◌, ◌+◌, ◌*◌, ◌/◌, ◌≤◌, ◌%◌, false, IfOk, if◌then◌else◌, slice_index_or, map};
ghost use Rattle.std.specs.List.{list_any, range_with_len};
ghost use Rattle.limbo_layout.specs.Layout.{is_in};
ghost use Rattle.value_heaps.specs.Types.{bits, map_bytes};
ghost use Rattle.value_frames.specs.Types.{desc};

use dis_file::TypeDesc;
use inf_text::Seq;
use std::alloc::{AllocError, Global};

// What a mark weighs in its byte.
fn weight(marks: &[bool], place: usize, weight: u8) -> u8
    ensures value { result ≡ (if slice_index_or marks.now place false then weight else 0) }
    ensures most { result ≤ weight }
{
    match marks.get(place) {
        Some(mark) => { if *mark { weight } else { 0 } }
        None => 0,
    }
}

// The first eight marks, the first as the top bit.
#[tactic(auto, using(crate::proofs::Maps::byte_is))]
fn byte_of(marks: &[bool]) -> u8
    ensures { result ≡ bits 8 marks.now }
{
    let high = weight(marks, 0, 128) + weight(marks, 1, 64);
    let next = weight(marks, 2, 32) + weight(marks, 3, 16);
    let third = weight(marks, 4, 8) + weight(marks, 5, 4);
    let low = weight(marks, 6, 2) + weight(marks, 7, 1);
    high + next + third + low
}

// Whether a word is marked.
fn is_marked(marks: &[bool]) -> bool
    ensures { result ≡ list_any (λ b. b) marks.now }
{
    marks.iter().any(|mark| *mark)
}

// The map of a type some of whose words refer, from the marks of its words; there is none where no word does.
fn map_of(alloc: Global, marks: &[bool]) -> Result<Seq<u8>, AllocError>
    ensures { IfOk result (λ map. map ≡ map_bytes marks.now) }
{
    let mut map = Vec::new(alloc);
    if !is_marked(marks) {
        return Ok(Seq::from_vec(map));
    }
    for number in 0..marks.len().div_ceil(8) {
        map.push(byte_of(&marks[8 * number..]))?;
    }
    Ok(Seq::from_vec(map))
}

// The words of which one begins at one of these places.
fn marks_of(alloc: Global, words: usize, places: &[u32]) -> Result<Vec<bool>, AllocError>
    ensures { IfOk result (λ marks. marks.items ≡ map (λ w. is_in (4 * w) places.now) (range_with_len 0 words)) }
{
    let mut marks = vec![in alloc; false; words]?;
    for place in places {
        let word = (*place / 4) as usize;
        if *place % 4 == 0 && word < words {
            marks[word] = true;
        }
    }
    Ok(marks)
}

/// The type of so many bytes, of which words refer at these places.
///
/// # Errors
/// Want of memory.
pub fn make_desc(alloc: Global, size: u32, places: &[u32]) -> Result<TypeDesc, AllocError>
    ensures { IfOk result (λ made. made ≡ desc size places.now) }
{
    let marks = marks_of(alloc, size.div_ceil(4) as usize, places)?;
    Ok(TypeDesc {
        size,
        map: map_of(alloc, &marks)?,
    })
}
