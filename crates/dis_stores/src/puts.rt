//! Words that take the place of others.

ghost use Rattle.std.specs.Prelude.{◌≡◌, ℕ, ◌+◌, Some, false, slice_get, IfOk, IfErr, OnErr};
ghost use Rattle.ref_heap.specs.Words.{cell_of};
ghost use Rattle.ref_heap.specs.Store.{AreHeld, at as block_at, outside};
ghost use Rattle.dis_meaning.specs.Words as words;
ghost use Rattle.dis_meaning.specs.Counts.{in_words};
ghost use Rattle.dis_memory.specs.Naming.{names};
ghost use Rattle.dis_meaning.specs.Words.{InFrame};
ghost use Rattle.dis_meaning.specs.Places.{Own, Data, Far};
ghost use Rattle.dis_memory.specs.Blocks.{World};
ghost use Rattle.dis_memory.specs.Places as places;
ghost use Rattle.dis_memory.specs.Places.{data_at, read, store};
ghost use Rattle.dis_places.specs.Regions.{block_words};
ghost use Rattle.dis_places.specs.View.{view_place, view_process, view_spot, view_world};
ghost use Rattle.dis_places.specs.Words.{view_word, view_words, Gives, GivesFault};
ghost use Rattle.dis_stores.specs.Storing.{is_address, settled, rested, named, Exchanges, IsNoMemory};
ghost use Rattle.dis_stores.specs.Storing.{frame_stored, frame_read, block_stored, block_read};

use crate::exchanges::exchange;
use dis_places::{
    Fault, Halt, Memory, Place, Process, Ref, Slot, Spot, Word, data_of, find, word_number,
};

/// Whether a word takes another: one of its own kind alone.
#[inline(always)]
pub(crate) fn fits(old: Word, new: Word) -> bool
    ensures { result ≡ words.fits (view_word old) (view_word new) }
{
    old.is_reference() == new.is_reference()
}

// The word of this number.
#[inline(always)]
fn nth(row: &[Word], k: usize) -> Result<Word, Fault>
    ensures word { GivesFault view_word result (words.or_wrong words.type_check (slice_get (view_words row.now) k)) }
    ensures stood { IfOk result (λ word. slice_get row.now k ≡ Some word) }
{
    match row.get(k) {
        Some(word) => Ok(*word),
        None => Err(Fault::TypeCheck),
    }
}

// Replaces a word by one of its kind.
#[inline(always)]
fn replace(row: &mut Vec<Word>, k: usize, new: Word) -> Result<Word, Fault>
    ensures gives { GivesFault (λ _. view_words row.new.items) result
        (words.replaced (view_words row.old.items) k (view_word new)) }
    ensures stood { IfOk result (λ old. slice_get row.old.items k ≡ Some old) }
    ensures named { IfOk result (λ old. (n : ℕ) → in_words n (view_words row.new.items) + named old n
        ≡ in_words n (view_words row.old.items) + named new n) }
    ensures kept { OnErr result (row.new ≡ row.old) }
{
    let old = nth(row, k)?;
    if !fits(old, new) {
        return Err(Fault::TypeCheck);
    }
    row[k] = new;
    Ok(old)
}

// Replaces the word at a byte of some words.
#[inline(always)]
fn put_at(row: &mut Vec<Word>, at: i64, new: Word) -> Result<Word, Fault>
    ensures gives { GivesFault (λ _. view_words row.new.items) result
        (words.stored (view_words row.old.items) at (view_word new)) }
    ensures stood { IfOk result (λ old. words.word_at (view_words row.old.items) at ≡ words.Found (view_word old)) }
    ensures named { IfOk result (λ old. (n : ℕ) → in_words n (view_words row.new.items) + named old n
        ≡ in_words n (view_words row.old.items) + named new n) }
    ensures kept { OnErr result (row.new ≡ row.old) }
{
    let k = word_number(at)?;
    replace(row, k, new)
}

// Replaces the word at a byte of the frame of this serial.
fn put_in_frame(process: &mut Process, serial: u64, at: i64, new: Word) -> Result<Word, Fault>
    ensures gives { GivesFault (λ _. settled (view_process process.new)) result
        (frame_stored (view_process process.old) serial at (view_word new)) }
    ensures stood { IfOk result (λ old. frame_read (view_process process.old) serial at ≡ words.Found (view_word old)) }
    ensures named { IfOk result (λ old. (n : ℕ) → names (view_process process.new) n + named old n
        ≡ names (view_process process.old) n + named new n) }
    ensures place { process.new.frame.pc ≡ process.old.frame.pc }
    ensures kept { OnErr result (process.new ≡ process.old) }
{
    match find(process, serial) {
        Slot::Running => put_at(&mut process.frame.words, at, new),
        Slot::Below(k) => put_at(&mut process.below[k].words, at, new),
        Slot::Made(k) => put_at(&mut process.made[k].words, at, new),
        Slot::Gone => Err(Fault::DeadAddress),
    }
}

// Replaces the word at a byte of a block that operands reach.
fn put_reached(memory: &mut Memory, block: Ref, at: i64, new: Word) -> Result<Word, Halt>
    requires reached { data_at (view_world memory.old) block.serial ≡ words.Found (block_words (block_at memory.old.heap block.serial)) }
    requires held { AreHeld memory.old.heap (named new) }
    ensures gives { Gives (λ _. view_world memory.new) result
        (block_stored (view_world memory.old) block.serial at (view_word new)) }
    ensures stood { IfOk result (λ old. block_read (view_world memory.old) block.serial at ≡ words.Found (view_word old)) }
    ensures exchanges { IfOk result (λ old. (n : ℕ) → outside memory.new.heap n + named new n
        ≡ outside memory.old.heap n + named old n) }
    ensures tables { memory.new.tables ≡ memory.old.tables }
    ensures sure { is_address (cell_of new) ≡ false → IfErr result (λ h. IsNoMemory h → ⊥) }
    ensures kept { OnErr result (memory.new ≡ memory.old) }
{
    memory.heap.stands();
    match word_number(at) {
        Ok(k) => exchange(&mut memory.heap, block, k, new),
        Err(fault) => Err(Halt::Fault(fault)),
    }
}

// Replaces the word at a byte of a block.
fn put_in_block(memory: &mut Memory, block: Ref, at: i64, new: Word) -> Result<Word, Halt>
    requires held { AreHeld memory.old.heap (named new) }
    ensures gives { Gives (λ _. view_world memory.new) result
        (block_stored (view_world memory.old) block.serial at (view_word new)) }
    ensures stood { IfOk result (λ old. block_read (view_world memory.old) block.serial at ≡ words.Found (view_word old)) }
    ensures exchanges { IfOk result (λ old. (n : ℕ) → outside memory.new.heap n + named new n
        ≡ outside memory.old.heap n + named old n) }
    ensures tables { memory.new.tables ≡ memory.old.tables }
    ensures sure { is_address (cell_of new) ≡ false → IfErr result (λ h. IsNoMemory h → ⊥) }
    ensures kept { OnErr result (memory.new ≡ memory.old) }
{
    match data_of(&memory.heap, block) {
        Ok(_) => put_reached(memory, block, at, new),
        Err(fault) => Err(Halt::Fault(fault)),
    }
}

// Replaces the word at a byte of the running frame.
#[inline(always)]
fn put_own(process: &mut Process, at: i64, new: Word) -> Result<Word, Halt>
    ensures gives { (x : World) → Gives (λ _. places.memory x (settled (view_process process.new))) result
        (rested (store x (view_process process.old) (Own at) (view_word new))) }
    ensures stood { IfOk result (λ old. words.word_at (view_words process.old.frame.words.items) at ≡ words.Found (view_word old)) }
    ensures named { IfOk result (λ old. (n : ℕ) → names (view_process process.new) n + named old n
        ≡ names (view_process process.old) n + named new n) }
    ensures place { process.new.frame.pc ≡ process.old.frame.pc }
    ensures sure { is_address (cell_of new) ≡ false → IfErr result (λ h. IsNoMemory h → ⊥) }
    ensures kept { OnErr result (process.new ≡ process.old) }
{
    match put_at(&mut process.frame.words, at, new) {
        Ok(old) => Ok(old),
        Err(fault) => Err(Halt::Fault(fault)),
    }
}

// Replaces the word at a byte of the frame of this serial.
fn put_far(process: &mut Process, serial: u64, at: i64, new: Word) -> Result<Word, Halt>
    ensures gives { (x : World) → Gives (λ _. places.memory x (settled (view_process process.new))) result
        (rested (store x (view_process process.old) (Far (InFrame serial) at) (view_word new))) }
    ensures stood { (x : World) → IfOk result (λ old. read x (view_process process.old) (Far (InFrame serial) at)
        ≡ words.Found (view_word old)) }
    ensures named { IfOk result (λ old. (n : ℕ) → names (view_process process.new) n + named old n
        ≡ names (view_process process.old) n + named new n) }
    ensures place { process.new.frame.pc ≡ process.old.frame.pc }
    ensures sure { is_address (cell_of new) ≡ false → IfErr result (λ h. IsNoMemory h → ⊥) }
    ensures kept { OnErr result (process.new ≡ process.old) }
{
    match put_in_frame(process, serial, at, new) {
        Ok(old) => Ok(old),
        Err(fault) => Err(Halt::Fault(fault)),
    }
}

// Replaces the word at a byte of a place.
#[inline]
fn put_in_place(
    memory: &mut Memory,
    process: &mut Process,
    place: Place,
    at: i64,
    new: Word,
) -> Result<Word, Halt>
    requires held { AreHeld memory.old.heap (named new) }
    ensures gives { Gives (λ _. places.memory (view_world memory.new) (settled (view_process process.new))) result
        (rested (store (view_world memory.old) (view_process process.old) (Far (view_place place) at) (view_word new))) }
    ensures stood { IfOk result (λ old. read (view_world memory.old) (view_process process.old) (Far (view_place place) at)
        ≡ words.Found (view_word old)) }
    ensures exchanges { IfOk result (Exchanges memory.old process.old memory.new process.new new) }
    ensures tables { memory.new.tables ≡ memory.old.tables }
    ensures place { process.new.frame.pc ≡ process.old.frame.pc }
    ensures sure { is_address (cell_of new) ≡ false → IfErr result (λ h. IsNoMemory h → ⊥) }
    ensures kept { OnErr result ((memory.new ≡ memory.old) × (process.new ≡ process.old)) }
{
    match place {
        Place::Frame(serial) => put_far(process, serial, at, new),
        Place::Block(block) => put_in_block(memory, block, at, new),
    }
}

// Replaces the word at a byte of the data of the process's module.
#[inline]
fn put_in_data(memory: &mut Memory, process: &Process, at: i64, new: Word) -> Result<Word, Halt>
    requires held { AreHeld memory.old.heap (named new) }
    ensures gives { Gives (λ _. places.memory (view_world memory.new) (settled (view_process process.now))) result
        (rested (store (view_world memory.old) (view_process process.now) (Data at) (view_word new))) }
    ensures stood { IfOk result (λ old. read (view_world memory.old) (view_process process.now) (Data at)
        ≡ words.Found (view_word old)) }
    ensures exchanges { IfOk result (Exchanges memory.old process.now memory.new process.now new) }
    ensures tables { memory.new.tables ≡ memory.old.tables }
    ensures sure { is_address (cell_of new) ≡ false → IfErr result (λ h. IsNoMemory h → ⊥) }
    ensures kept { OnErr result (memory.new ≡ memory.old) }
{
    put_in_block(memory, process.frame.instance, at, new)
}

/// Replaces the word at a byte by one of its kind, and gives back what stood there. The caller gives away the reference in the new word,
/// and has the one in the old word from then on: nothing is let go yet.
///
/// # Errors
/// The fault that the definition has, or want of memory; then nothing has changed.
#[inline(always)]
pub fn put(memory: &mut Memory, process: &mut Process, spot: Spot, new: Word) -> Result<Word, Halt>
    requires held { AreHeld memory.old.heap (named new) }
    ensures gives { Gives (λ _. places.memory (view_world memory.new) (settled (view_process process.new))) result
        (rested (store (view_world memory.old) (view_process process.old) (view_spot spot) (view_word new))) }
    ensures stood { IfOk result (λ old. read (view_world memory.old) (view_process process.old) (view_spot spot)
        ≡ words.Found (view_word old)) }
    ensures exchanges { IfOk result (Exchanges memory.old process.old memory.new process.new new) }
    ensures tables { memory.new.tables ≡ memory.old.tables }
    ensures place { process.new.frame.pc ≡ process.old.frame.pc }
    ensures sure { is_address (cell_of new) ≡ false → IfErr result (λ h. IsNoMemory h → ⊥) }
    ensures kept { OnErr result ((memory.new ≡ memory.old) × (process.new ≡ process.old)) }
{
    match spot {
        Spot::Own(at) => put_own(process, at, new),
        Spot::Data(at) => put_in_data(memory, process, at, new),
        Spot::Far(place, at) => put_in_place(memory, process, place, at, new),
    }
}
