ghost use Rattle.std.specs.Prelude.{◌≡◌, ◌≢◌, ℕ, ◌+◌, ◌<◌, ◌≤◌, ◌-◌, Some, None, OnOk, OnErr, IfOk, IfErr, IsOk, Err, IfSome, IfNone, OnSome, option_copied, slice_get};
ghost use Rattle.std.specs.Option.{option_map};
ghost use Rattle.slab.specs.Slab.{get, slab_len, Updates, HasRoomFor};
ghost use Rattle.ref_heap.specs.Answers.{hold_answer, set_answer, fits_there, extend_fault};
ghost use Rattle.ref_heap.specs.Store.{Block, fresh, one_more, widened, with_content, words_of};
ghost use Rattle.ref_heap.specs.Words.{Content, cell_of, cells, wide, with_cell, with_more, numbers_in, IsCompact};
ghost use Rattle.ref_heap.specs.Slots.{IsAt, IsUnique, Absent, kept, block_of, Changed, DropsOne, Takes, KeepsOthers, KeepsNumbers, SameBlocks, Renamed};

use crate::kind::{HeapFault, Kind};
use crate::word::{Ref, Word};
use crate::words::Words;
use slab::Slab;
use std::alloc::{AllocError, Global};

/// A block in its slot. The count of a block that goes is the key of the next slot of the chain, or `u64::MAX`.
#[derive(Drop)]
pub(crate) struct Slot {
    pub(crate) serial: u64,
    pub(crate) count: u64,
    pub(crate) kind: Kind,
    pub(crate) words: Words,
}

// The slot of a serial, by a look at each.
fn scan(slots: &Slab<Slot>, serial: u64) -> Option<usize>
    ensures found { IfSome result (λ i. IsAt slots.now i serial) }
    ensures absent { IfNone result (Absent slots.now serial) }
{
    for (i, block) in slots.iter() {
        if block.serial == serial {
            return Some(i);
        }
    }
    None
}

// The slot of a block: where its name says, and else wherever it is.
pub(crate) fn find(slots: &Slab<Slot>, r: Ref) -> Option<usize>
    ensures found { IfSome result (λ i. IsAt slots.now i r.serial) }
    ensures absent { IfNone result (Absent slots.now r.serial) }
{
    if let Some(block) = slots.get(r.slot) {
        if block.serial == r.serial {
            return Some(r.slot);
        }
    }
    scan(slots, r.serial)
}

// The block itself.
pub(crate) fn look(slots: &Slab<Slot>, r: Ref) -> Option<&Slot>
    requires { IsUnique slots.now }
    ensures { option_map block_of (option_copied result) ≡ kept slots.now r.serial }
{
    match find(slots, r) {
        Some(i) => slots.get(i),
        None => None,
    }
}

// Drops one name. A block whose last name this was goes to the front of the chain `head`.
pub(crate) fn drop_one(slots: &mut Slab<Slot>, r: Ref, head: u64) -> u64
    requires { IsUnique slots.old }
    ensures unique { IsUnique slots.new }
    ensures drops { DropsOne slots.old slots.new r.serial head result }
    ensures keeps { KeepsOthers slots.old slots.new r.serial }
    ensures numbers { KeepsNumbers slots.old slots.new }
{
    match find(slots, r) {
        Some(i) => lower(slots, i, head),
        None => head,
    }
}

// The same of a slot.
fn lower(slots: &mut Slab<Slot>, i: usize, head: u64) -> u64
    ensures len { slab_len slots.new ≡ slab_len slots.old }
    ensures less { (b : Slot) → get slots.old i ≡ Some b → 1 < b.count → Updates slots.old slots.new i (Some (record b { count = b.count - 1 })) × (result ≡ head) }
    ensures last { (b : Slot) → get slots.old i ≡ Some b → b.count ≤ 1 → Updates slots.old slots.new i (Some (record b { count = head })) × (result ≡ i) }
{
    match slots.get_mut(i) {
        Some(block) => {
            if block.count > 1 {
                block.count -= 1;
                head
            } else {
                block.count = head;
                i as u64
            }
        }
        None => head,
    }
}

// Takes out the block of a slot.
pub(crate) fn take(slots: &mut Slab<Slot>, link: u64) -> Option<Slot>
    requires { IsUnique slots.old }
    ensures unique { IsUnique slots.new }
    ensures takes { Takes slots.old slots.new link result }
    ensures len { OnSome result (slab_len slots.new + 1 ≡ slab_len slots.old) }
    ensures keeps { IfSome result (λ s. KeepsOthers slots.old slots.new s.serial) }
    ensures room { OnSome result (HasRoomFor slots.new 1) }
{
    slots.try_remove(link as usize)
}

// Puts a new block into a free slot.
pub(crate) fn place(slots: &mut Slab<Slot>, serial: u64, kind: Kind, words: Words) -> usize
    requires unique { IsUnique slots.old }
    requires absent { kept slots.old serial ≡ None }
    requires room { HasRoomFor slots.old 1 }
    ensures unique { IsUnique slots.new }
    ensures placed { Changed (kept slots.old) (kept slots.new) serial (Some (fresh kind words)) }
{
    let _room = slots.capacity();
    slots.insert_reserved(Slot {
        serial,
        count: 1,
        kind,
        words,
    })
}

// Makes room for one more block.
pub(crate) fn make_room(slots: &mut Slab<Slot>) -> Result<(), AllocError>
    requires { IsUnique slots.old }
    ensures unique { IsUnique slots.new }
    ensures same { SameBlocks slots.old slots.new }
    ensures room { OnOk result (HasRoomFor slots.new 1) }
{
    slots.reserve(1)
}

// Adds 1 to the count of a block.
pub(crate) fn raise(slots: &mut Slab<Slot>, r: Ref) -> Result<(), HeapFault>
    requires { IsUnique slots.old }
    ensures unique { IsUnique slots.new }
    ensures answer { result ≡ hold_answer (kept slots.old r.serial) }
    ensures ok { (b : Block) → kept slots.old r.serial ≡ Some b → OnOk result (Changed (kept slots.old) (kept slots.new) r.serial (Some (one_more b))) }
    ensures room { HasRoomFor slots.old 1 → HasRoomFor slots.new 1 }
    ensures err { OnErr result (SameBlocks slots.old slots.new) }
{
    match find(slots, r) {
        Some(i) => raise_at(slots, i),
        None => Err(HeapFault::Dead),
    }
}

fn raise_at(slots: &mut Slab<Slot>, i: usize) -> Result<(), HeapFault>
    ensures answer { (b : Slot) → get slots.old i ≡ Some b → result ≡ hold_answer (Some (block_of b)) }
    ensures ok { (b : Slot) → get slots.old i ≡ Some b → OnOk result (Updates slots.old slots.new i (Some (record b { count = b.count + 1 }))) }
    ensures room { HasRoomFor slots.old 1 → HasRoomFor slots.new 1 }
    ensures err { OnErr result (slots.new ≡ slots.old) }
{
    match slots.get_mut(i) {
        Some(block) => {
            if block.count == u64::MAX {
                return Err(HeapFault::Full);
            }
            block.count += 1;
            Ok(())
        }
        None => Err(HeapFault::Dead),
    }
}

// Sets word `at` of a block.
pub(crate) fn put(slots: &mut Slab<Slot>, r: Ref, at: usize, word: Word) -> Result<(), HeapFault>
    requires { IsUnique slots.old }
    ensures unique { IsUnique slots.new }
    ensures answer { result ≡ set_answer (kept slots.old r.serial) at (cell_of word) }
    ensures ok { (b : Block) → kept slots.old r.serial ≡ Some b → OnOk result (Changed (kept slots.old) (kept slots.new) r.serial (Some (with_content b (with_cell b.content at (cell_of word))))) }
    ensures err { OnErr result (SameBlocks slots.old slots.new) }
{
    match find(slots, r) {
        Some(i) => put_at(slots, i, at, word),
        None => Err(HeapFault::Dead),
    }
}

fn put_at(slots: &mut Slab<Slot>, i: usize, at: usize, word: Word) -> Result<(), HeapFault>
    ensures answer { (b : Slot) → get slots.old i ≡ Some b → result ≡ set_answer (Some (block_of b)) at (cell_of word) }
    ensures ok { (b : Slot) → get slots.old i ≡ Some b → OnOk result (Updates slots.old slots.new i (Some (record b { words = with_cell b.words at (cell_of word) }))) }
    ensures err { OnErr result (slots.new ≡ slots.old) }
{
    match slots.get_mut(i) {
        Some(block) => put_in(&mut block.words, at, word),
        None => Err(HeapFault::Dead),
    }
}

fn put_in(words: &mut Words, at: usize, word: Word) -> Result<(), HeapFault>
    ensures answer { result ≡ fits_there (slice_get (cells words.old) at) (cell_of word) }
    ensures ok { OnOk result (words.new ≡ with_cell words.old at (cell_of word)) }
    ensures err { OnErr result (words.new ≡ words.old) }
{
    let here = match words.get(at) {
        Some(here) => here,
        None => return Err(HeapFault::OutOfBlock),
    };
    if here.is_reference() && !word.is_reference() {
        return Err(HeapFault::NotData);
    }
    if !here.is_reference() && word.is_reference() {
        return Err(HeapFault::NotPointer);
    }
    words.set(at, word);
    Ok(())
}

// Adds numbers behind those of a compact block.
pub(crate) fn extend(slots: &mut Slab<Slot>, r: Ref, more: &[u32]) -> Result<(), HeapFault>
    requires unique { IsUnique slots.old }
    requires compact { (b : Block) → kept slots.old r.serial ≡ Some b → IsCompact b.content }
    ensures unique { IsUnique slots.new }
    ensures fault { IfErr result (λ e. e ≡ extend_fault (kept slots.old r.serial)) }
    ensures dead { kept slots.old r.serial ≡ None → result ≡ Err HeapFault.Dead }
    ensures ok { (b : Block) → kept slots.old r.serial ≡ Some b → OnOk result (Changed (kept slots.old) (kept slots.new) r.serial (Some (with_content b (with_more b.content more.now)))) }
    ensures err { OnErr result (SameBlocks slots.old slots.new) }
{
    match find(slots, r) {
        Some(i) => extend_at(slots, i, more),
        None => Err(HeapFault::Dead),
    }
}

fn extend_at(slots: &mut Slab<Slot>, i: usize, more: &[u32]) -> Result<(), HeapFault>
    requires { (b : Slot) → get slots.old i ≡ Some b → IsCompact b.words }
    ensures fault { (b : Slot) → get slots.old i ≡ Some b → IfErr result (λ e. e ≡ HeapFault.NoMemory) }
    ensures ok { (b : Slot) → get slots.old i ≡ Some b → OnOk result (Updates slots.old slots.new i (Some (record b { words = with_more b.words more.now }))) }
    ensures err { OnErr result (slots.new ≡ slots.old) }
{
    match slots.get_mut(i) {
        Some(block) => match block.words.append(more) {
            Ok(()) => Ok(()),
            Err(_) => Err(HeapFault::NoMemory),
        },
        None => Err(HeapFault::Dead),
    }
}

// Keeps the words of a block so that they take addresses.
pub(crate) fn widen(slots: &mut Slab<Slot>, alloc: Global, r: Ref) -> Result<(), HeapFault>
    requires { IsUnique slots.old }
    ensures unique { IsUnique slots.new }
    ensures fault { IfErr result (λ e. e ≡ extend_fault (kept slots.old r.serial)) }
    ensures wide { (b : Block) → kept slots.old r.serial ≡ Some b → numbers_in b.content ≡ None → IsOk result }
    ensures dead { kept slots.old r.serial ≡ None → result ≡ Err HeapFault.Dead }
    ensures ok { (b : Block) → kept slots.old r.serial ≡ Some b → OnOk result (Changed (kept slots.old) (kept slots.new) r.serial (Some (widened b))) }
    ensures err { OnErr result (SameBlocks slots.old slots.new) }
{
    match find(slots, r) {
        Some(i) => widen_at(slots, alloc, i),
        None => Err(HeapFault::Dead),
    }
}

fn widen_at(slots: &mut Slab<Slot>, alloc: Global, i: usize) -> Result<(), HeapFault>
    ensures fault { (b : Slot) → get slots.old i ≡ Some b → IfErr result (λ e. e ≡ HeapFault.NoMemory) }
    ensures wide { (b : Slot) → get slots.old i ≡ Some b → numbers_in b.words ≡ None → IsOk result }
    ensures ok { (b : Slot) → get slots.old i ≡ Some b → OnOk result (Updates slots.old slots.new i (Some (record b { words = wide (cells b.words) }))) }
    ensures err { OnErr result (slots.new ≡ slots.old) }
{
    match slots.get_mut(i) {
        Some(block) => match block.words.widen(alloc) {
            Ok(()) => Ok(()),
            Err(_) => Err(HeapFault::NoMemory),
        },
        None => Err(HeapFault::Dead),
    }
}

// Gives a block to which there is one reference another serial. It answers where the block lies then.
pub(crate) fn rename(slots: &mut Slab<Slot>, r: Ref, serial: u64) -> usize
    requires unique { IsUnique slots.old }
    requires live { kept slots.old r.serial ≢ None }
    requires absent { kept slots.old serial ≡ None }
    ensures unique { IsUnique slots.new }
    ensures renamed { (b : Block) → kept slots.old r.serial ≡ Some b → Renamed (kept slots.old) (kept slots.new) r.serial serial (fresh b.kind b.content) }
{
    match find(slots, r) {
        Some(i) => match take(slots, i as u64) {
            Some(block) => place(slots, serial, block.kind, block.words),
            None => unreachable!(),
        },
        None => unreachable!(),
    }
}
