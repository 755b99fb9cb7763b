//! The types of an object, with their maps.

ghost use Rattle.std.specs.Prelude.{◌≡◌, ◌+◌, ◌*◌, ◌/◌, ◌<◌, ◌≤◌, true, false, IfOk, if◌then◌else◌};
ghost use Rattle.std.specs.Prelude.{[], ◌∷◌, ◌++◌, map, slice_index_or};
ghost use Rattle.slot_code.specs.View.{view_inst, view_function};
ghost use Rattle.slot_code.specs.Layout as layout;
ghost use Rattle.dis_objects.specs.Frames as frames;
ghost use Rattle.dis_objects.specs.Objects as objects;
ghost use Rattle.dis_objects.specs.Words.{frame_limit, SmallFrame, AllSmallFrames};

use crate::layout::{LINKAGE, end_of, place_behind, place_for, printed_end, whole};
use crate::room::room_of;
use dis_file::TypeDesc;
use inf_text::Seq;
use limbo_values::Kind;
use slot_code::{Inst, SlotFn};
use std::alloc::{AllocError, Global};

// What a mark weighs in its byte.
fn weight(marks: &[bool], place: usize, weight: u8) -> u8
    ensures value { result ≡ (if slice_index_or marks.now place false then weight else 0) }
    ensures most { result ≤ weight }
{
    match marks.get(place) {
        Some(mark) => { if *mark { weight } else { 0 } }
        None => 0,
    }
}

// The first eight marks, the first as the top bit.
#[tactic(auto, using(crate::proofs::Maps::byte_is))]
fn byte_of(marks: &[bool]) -> u8
    ensures { result ≡ objects.bits 8 marks.now }
{
    let high = weight(marks, 0, 128) + weight(marks, 1, 64);
    let next = weight(marks, 2, 32) + weight(marks, 3, 16);
    let third = weight(marks, 4, 8) + weight(marks, 5, 4);
    let low = weight(marks, 6, 2) + weight(marks, 7, 1);
    high + next + third + low
}

// The map of a type, from the marks of its words.
fn map_of(alloc: Global, marks: &[bool]) -> Result<Seq<u8>, AllocError>
    ensures { IfOk result (λ map. map ≡ objects.map_of marks.now) }
{
    let mut map = Vec::new(alloc);
    for number in 0..marks.len().div_ceil(8) {
        map.push(byte_of(&marks[8 * number..]))?;
    }
    Ok(Seq::from_vec(map))
}

// A type of so many bytes, whose words are marked.
fn make_type(alloc: Global, size: u32, marks: &[bool]) -> Result<TypeDesc, AllocError>
    ensures { IfOk result (λ desc. desc ≡ record { size = size; map = objects.map_of marks.now }) }
{
    Ok(TypeDesc {
        size,
        map: map_of(alloc, marks)?,
    })
}

// Whether one of these variables that refers stands at a place.
#[tactic(auto, using(crate::proofs::Layouts::end_grows))]
fn refers_at(variables: &[Option<Kind>], place: u32) -> bool
    requires { layout.end_of 32 variables.now ≤ 1048576 }
    ensures { result ≡ frames.is_in place (frames.reference_places 32 variables.now) }
{
    let mut at = LINKAGE;
    for variable in variables {
        if variable.is_none() && place_for(*variable, at) == place {
            return true;
        }
        at = place_behind(*variable, at);
    }
    false
}

// Which words of a frame refer.
fn reference_words(alloc: Global, variables: &[Option<Kind>]) -> Result<Vec<bool>, AllocError>
    requires { layout.end_of 32 variables.now ≤ 1048576 }
    ensures { IfOk result (λ marks. marks.items ≡ frames.reference_words variables.now) }
{
    let mut marks = Vec::new(alloc);
    for word in 0..whole(end_of(LINKAGE, variables)) / 4 {
        marks.push(refers_at(variables, 4 * word))?;
    }
    Ok(marks)
}

// The type of a function's frame.
fn frame_desc(
    alloc: Global,
    functions: &[SlotFn],
    function: &SlotFn,
) -> Result<TypeDesc, AllocError>
    requires { SmallFrame (map view_function functions.now) (view_function function.now) }
    ensures { IfOk result (λ desc. desc ≡ objects.frame_desc (map view_function functions.now) (view_function function.now)) }
{
    let room = room_of(alloc, functions, function)?;
    let marks = reference_words(alloc, &function.variables)?;
    make_type(alloc, room.size, &marks)
}

// How many bytes the frame of a print has; any other instruction counts as a print of no numbers.
fn print_bytes(inst: &Inst) -> u32
    requires { objects.print_bytes (view_inst inst.now) ≤ frame_limit }
    ensures { result ≡ objects.print_bytes (view_inst inst.now) }
{
    match inst {
        Inst::Format { pieces } => whole(printed_end(pieces)),
        Inst::Move { .. } => 36,
        Inst::Hand { .. } => 36,
        Inst::Alter { .. } => 36,
        Inst::Operate { .. } => 36,
        Inst::Branch { .. } => 36,
        Inst::Jump { .. } => 36,
        Inst::Skip { .. } => 36,
        Inst::Back { .. } => 36,
        Inst::Begin { .. } => 36,
        Inst::Call { .. } => 36,
        Inst::Print { .. } => 36,
        Inst::Return { .. } => 36,
        Inst::Leave => 36,
    }
}

// How many those of a code have at most.
#[tactic(auto, using(crate::proofs::Layouts::printed_least))]
fn most_printed(code: &[Inst]) -> u32
    requires { objects.most_printed (map view_inst code.now) ≤ frame_limit }
    ensures { result ≡ objects.most_printed (map view_inst code.now) }
{
    let mut most = 36;
    for inst in code {
        most = most.max(print_bytes(inst));
    }
    most
}

// How many those of all functions have at most.
#[tactic(auto, using(crate::proofs::Layouts::all_least))]
fn most_of_all(functions: &[SlotFn]) -> u32
    requires { objects.most_of_all (map view_function functions.now) ≤ frame_limit }
    ensures { result ≡ objects.most_of_all (map view_function functions.now) }
{
    let mut most = 36;
    for f in functions {
        most = most.max(most_printed(&f.code));
    }
    most
}

// The type of a print's frame.
fn print_desc(alloc: Global, functions: &[SlotFn]) -> Result<TypeDesc, AllocError>
    requires { objects.most_of_all (map view_function functions.now) ≤ frame_limit }
    ensures { IfOk result (λ desc. desc ≡ objects.print_desc (map view_function functions.now)) }
{
    let marks = [false, false, false, false, false, false, false, false, true];
    make_type(alloc, most_of_all(functions), &marks)
}

/// The types of a module: its data, of so many bytes and with these words, the frames of its functions, and that of a print.
///
/// # Errors
/// Want of memory.
pub fn types_of(
    alloc: Global,
    functions: &[SlotFn],
    size: u32,
    words: &[bool],
) -> Result<Seq<TypeDesc>, AllocError>
    requires small { AllSmallFrames (map view_function functions.now) }
    requires most { objects.most_of_all (map view_function functions.now) ≤ frame_limit }
    ensures { let fs = map view_function functions.now in
        IfOk result (λ types. types ≡ record { size = size; map = objects.map_of words.now }
        ∷ (map (objects.frame_desc fs) fs ++ objects.print_desc fs ∷ [])) }
{
    let mut types = Vec::new(alloc);
    types.push(make_type(alloc, size, words)?)?;
    for f in functions {
        types.push(frame_desc(alloc, functions, f)?)?;
    }
    types.push(print_desc(alloc, functions)?)?;
    Ok(Seq::from_vec(types))
}
