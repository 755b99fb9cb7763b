//! Bytes of memory, and the words among which they lie.

ghost use Rattle.std.specs.Prelude.{◌≡◌, ◌<◌, ◌^◌, slice_get, IfOk};
ghost use Rattle.dis_meaning.specs.Words as words;
ghost use Rattle.ref_heap.specs.Store.{Store, at};
ghost use Rattle.dis_meaning.specs.Places as places;
ghost use Rattle.dis_meaning.specs.Places.{place_in};
ghost use Rattle.dis_memory.specs.Places as meaning;
ghost use Rattle.dis_places.specs.Regions.{words_here, words_in, block_words};
ghost use Rattle.dis_places.specs.View.{view_place, view_process, view_spot, view_world};
ghost use Rattle.dis_places.specs.Words.{view_word, view_words, GivesFault};

use crate::blocks::data_of;
use crate::fault::Fault;
use crate::frame::Frame;
use crate::frames::{Slot, find};
use crate::memory::Memory;
use crate::process::Process;
use ref_heap::{Heap, Place, Ref, Word};

/// A byte of memory: of the running frame, of its module's data, or of the place that an address names.
#[derive(Clone, Copy)]
pub enum Spot {
    Own(i64),
    Data(i64),
    Far(Place, i64),
}

impl Spot {
    /// Its number among the bytes there.
    #[inline(always)]
    pub fn byte(self) -> i64
        ensures { result ≡ place_in (view_spot self) }
    {
        match self {
            Spot::Own(at) => at,
            Spot::Data(at) => at,
            Spot::Far(_, at) => at,
        }
    }
}

/// Where words lie: in the frame that runs, in one that waits or one that is made, by its place, or in a block.
#[derive(Clone, Copy)]
pub enum Region {
    Own,
    Below(usize),
    Made(usize),
    Block(Ref),
}

/// The number of the word at a byte: a byte inside a word is none.
#[inline(always)]
pub fn word_number(at: i64) -> Result<usize, Fault>
    ensures number { GivesFault (λ k. k) result (words.word_number at) }
    ensures small { IfOk result (λ k. k < 2 ^ 61) }
{
    if at < 0 || at % 4 != 0 {
        return Err(Fault::TypeCheck);
    }
    Ok((at / 4) as usize)
}

/// The number of a byte among those of some words.
#[inline(always)]
pub fn byte_number(at: i64) -> Result<usize, Fault>
    ensures number { GivesFault (λ n. n) result (words.at_least_zero at) }
    ensures small { IfOk result (λ n. n < 2 ^ 63) }
{
    if at < 0 {
        return Err(Fault::TypeCheck);
    }
    Ok(at as usize)
}

// The words of the frame of this serial.
#[inline]
fn frame_of(process: &Process, serial: u64) -> Result<Region, Fault>
    ensures { (h : Store) → GivesFault (λ g. words_here h process.now g) result
        (places.words_in serial (places.all_frames (view_process process.now))) }
{
    match find(process, serial) {
        Slot::Running => Ok(Region::Own),
        Slot::Below(k) => Ok(Region::Below(k)),
        Slot::Made(k) => Ok(Region::Made(k)),
        Slot::Gone => Err(Fault::DeadAddress),
    }
}

// The words of a place.
#[inline]
fn place_of(memory: &Memory, process: &Process, place: Place) -> Result<Region, Fault>
    ensures { GivesFault (λ g. words_here memory.now.heap process.now g) result
        (meaning.words_of (view_world memory.now) (view_process process.now) (view_place place)) }
{
    match place {
        Place::Frame(serial) => frame_of(process, serial),
        Place::Block(block) => data_of(&memory.heap, block),
    }
}

/// The words among which a byte is.
#[inline(always)]
pub fn reach(memory: &Memory, process: &Process, spot: Spot) -> Result<Region, Fault>
    ensures { GivesFault (λ g. words_here memory.now.heap process.now g) result
        (meaning.words_at (view_world memory.now) (view_process process.now) (view_spot spot)) }
{
    match spot {
        Spot::Own(_) => Ok(Region::Own),
        Spot::Data(_) => data_of(&memory.heap, process.frame.instance),
        Spot::Far(place, _) => place_of(memory, process, place),
    }
}

#[inline(always)]
fn nth_of(row: &[Word], k: usize) -> Result<Word, Fault>
    ensures { GivesFault view_word result (words.or_wrong words.type_check (slice_get (view_words row.now) k)) }
{
    match row.get(k) {
        Some(word) => Ok(*word),
        None => Err(Fault::TypeCheck),
    }
}

#[inline]
fn nth_waiting(frames: &[Frame], place: usize, k: usize) -> Result<Word, Fault>
    ensures { GivesFault view_word result
        (words.or_wrong words.type_check (slice_get (words_in (slice_get frames.now place)) k)) }
{
    match frames.get(place) {
        Some(frame) => nth_of(&frame.words, k),
        None => Err(Fault::TypeCheck),
    }
}

#[inline]
fn nth_in_block(heap: &Heap, block: Ref, k: usize) -> Result<Word, Fault>
    ensures { GivesFault view_word result
        (words.or_wrong words.type_check (slice_get (block_words (at heap.now block.serial)) k)) }
{
    match heap.get(block, k) {
        Ok(word) => Ok(word),
        Err(_) => Err(Fault::TypeCheck),
    }
}

/// The word of this number in a region.
#[inline(always)]
pub fn nth(memory: &Memory, process: &Process, region: Region, k: usize) -> Result<Word, Fault>
    ensures { GivesFault view_word result
        (words.or_wrong words.type_check (slice_get (words_here memory.now.heap process.now region) k)) }
{
    match region {
        Region::Own => nth_of(&process.frame.words, k),
        Region::Below(place) => nth_waiting(&process.below, place, k),
        Region::Made(place) => nth_waiting(&process.made, place, k),
        Region::Block(block) => nth_in_block(&memory.heap, block, k),
    }
}
