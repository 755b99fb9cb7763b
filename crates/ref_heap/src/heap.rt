ghost use Rattle.std.specs.Prelude.{◌≡◌, ℕ, ◌+◌, ◌<◌, ◌≤◌, Some, None, [], ◌∷◌, length, map, OnOk, OnErr, IfOk, IfErr, IsErr, IsOk, Err, true, Bool, option_copied};
ghost use Rattle.std.specs.Vec.{vec_capacity};
ghost use Rattle.ref_heap.specs.Words.{cell_of, cells, naming, wide, numbers_in, with_cell, with_more, MayTake, IsCompact, plain, refer};
ghost use Rattle.ref_heap.specs.Kept.{blank_word};
ghost use Rattle.ref_heap.specs.Kinds.{fd_number as fd_number_of};
ghost use Rattle.ref_heap.specs.Store.{Block, IsHeap, AreHeld, IsAlone, IsLive, IsSole, at, count, outside, one, with_block, with_new, without_block, widened, with_content, fresh, blank_cells, one_more, one_less, words_of, word_in, live_numbers};
ghost use Rattle.ref_heap.specs.Drops.{Drops, Lists, Reuses};
ghost use Rattle.ref_heap.specs.Answers.{answer_for, drop_answer, hold_answer, get_answer, set_answer, as_cell, make_fault, extend_fault, IsRefFault, most};

use crate::freeing::{empty, release};
use crate::kind::{Freed, HeapFault, Kind};
use crate::slots::{Slot, extend, look, make_room, place, put, raise, rename, widen};
use crate::word::{Ref, Word};
use crate::words::Words;
use slab::Slab;
use std::alloc::{AllocError, Global};
use std::marker::Model;

/// A heap of counted blocks.
#[derive(Drop)]
pub struct Heap {
    alloc: Global,
    // How many blocks were made: the next one's serial.
    made: u64,
    // How many live blocks are for open files: so many numbers `lost` has room for.
    numbered: usize,
    slots: Slab<Slot>,
    lost: Vec<u32>,
}

impl Model for Heap {
    ghost use Rattle.ref_heap.specs.Store.{Store, store_code};

    ghost Value = { Store };

    ghost coded = { store_code };

    ghost use Rattle.ref_heap.specs.View.{store_of, IsKept};

    ghost view = { store_of };

    ghost invariant = { IsKept };
}

impl Heap {
    /// An empty heap.
    ///
    /// # Errors
    /// Want of memory.
    pub fn new(alloc: Global) -> Result<Heap, AllocError>
        ensures made { IfOk result (λ heap. heap.made ≡ 0) }
        ensures blocks { IfOk result (λ heap. (n : ℕ) → at heap n ≡ None) }
        ensures lost { IfOk result (λ heap. heap.lost ≡ []) }
    {
        let slots = Slab::with_capacity(alloc, 64)?;
        Ok(Heap {
            alloc,
            made: 0,
            numbered: 0,
            slots,
            lost: Vec::new(alloc),
        })
    }

    /// What is true of every heap. It does nothing.
    pub fn stands(&self)
        ensures { IsHeap self.now }
    {
        let _ = &self.made;
    }

    /// How many blocks were made: the serial of the next one.
    pub fn made(&self) -> u64
        ensures { result ≡ self.now.made }
    {
        self.made
    }

    /// The numbers of open files whose blocks the last drop freed, rising.
    pub fn lost(&self) -> &[u32]
        ensures { result.now ≡ self.now.lost }
    {
        &self.lost
    }

    /// What a block is.
    ///
    /// # Errors
    /// 90 `Dead` exactly where the block isn't live.
    pub fn kind_of(&self, r: Ref) -> Result<Kind, HeapFault>
        ensures { result ≡ answer_for (λ b. b.kind) (at self.now r.serial) }
    {
        match look(&self.slots, r) {
            Some(block) => Ok(block.kind),
            None => Err(HeapFault::Dead),
        }
    }

    /// How many references to a block there are.
    ///
    /// # Errors
    /// 90 `Dead` exactly where the block isn't live.
    pub fn count_of(&self, r: Ref) -> Result<u64, HeapFault>
        ensures { result ≡ answer_for (λ b. b.count) (at self.now r.serial) }
    {
        match look(&self.slots, r) {
            Some(block) => Ok(block.count),
            None => Err(HeapFault::Dead),
        }
    }

    /// How many words a block has.
    ///
    /// # Errors
    /// 90 `Dead` exactly where the block isn't live.
    pub fn len_of(&self, r: Ref) -> Result<usize, HeapFault>
        ensures { result ≡ answer_for (λ b. length (words_of b)) (at self.now r.serial) }
    {
        match look(&self.slots, r) {
            Some(block) => Ok(block.words.len()),
            None => Err(HeapFault::Dead),
        }
    }

    /// The number that `alloc_fd` was given for a block, and none where another call made it.
    ///
    /// # Errors
    /// 90 `Dead` exactly where the block isn't live.
    pub fn fd_of(&self, r: Ref) -> Result<Option<u32>, HeapFault>
        ensures { result ≡ answer_for (λ b. fd_number_of b.kind) (at self.now r.serial) }
    {
        match look(&self.slots, r) {
            Some(block) => Ok(block.kind.fd_number()),
            None => Err(HeapFault::Dead),
        }
    }

    /// Word `i` of a block.
    ///
    /// # Errors
    /// 90 `Dead` exactly where the block isn't live; 93 `OutOfBlock` exactly where it has no such word.
    pub fn get(&self, r: Ref, i: usize) -> Result<Word, HeapFault>
        ensures { as_cell result ≡ get_answer (at self.now r.serial) i }
    {
        match look(&self.slots, r) {
            Some(block) => match block.words.get(i) {
                Some(word) => Ok(word),
                None => Err(HeapFault::OutOfBlock),
            },
            None => Err(HeapFault::Dead),
        }
    }

    /// The numbers of a compact block: none where the block isn't live or isn't compact.
    pub fn numbers(&self, r: Ref) -> Option<&[u32]>
        ensures { option_copied result ≡ live_numbers (at self.now r.serial) }
    {
        match look(&self.slots, r) {
            Some(block) => block.words.numbers(),
            None => None,
        }
    }

    /// A zeroed record: a reference word where `map` marks one, and else a plain word. Its count is 1, and its serial was
    /// never used before.
    ///
    /// # Errors
    /// 94 `Full` exactly where 18,446,744,073,709,551,615 blocks were made before; `NoMemory`. Then the heap is as before.
    pub fn alloc(&mut self, map: &[bool]) -> Result<Ref, HeapFault>
        ensures serial { IfOk result (λ r. r.serial ≡ self.old.made) }
        ensures ok { OnOk result (self.new ≡ with_new self.old (fresh Kind.Record (wide (blank_cells map.now)))) }
        ensures outside { IfOk result (λ r. (n : ℕ) → outside self.new n ≡ outside self.old n + one r.serial n) }
        ensures fault { IfErr result (λ e. e ≡ make_fault self.old) }
        ensures full { self.old.made ≡ most → IsErr result }
        ensures err { OnErr result (self.new ≡ self.old) }
    {
        if self.made == u64::MAX {
            return Err(HeapFault::Full);
        }
        let words = blank_words(self.alloc, map)?;
        self.add(Kind::Record, words)
    }

    /// A block of these words. The caller gives away the references in them.
    ///
    /// # Errors
    /// As `alloc`.
    pub fn add(&mut self, kind: Kind, words: Words) -> Result<Ref, HeapFault>
        requires no_file { fd_number_of kind ≡ None }
        requires held { AreHeld self.old (naming (cells words)) }
        ensures serial { IfOk result (λ r. r.serial ≡ self.old.made) }
        ensures ok { OnOk result (self.new ≡ with_new self.old (fresh kind words)) }
        ensures outside { IfOk result (λ r. (n : ℕ) → outside self.new n + naming (cells words) n ≡ outside self.old n + one r.serial n) }
        ensures fault { IfErr result (λ e. e ≡ make_fault self.old) }
        ensures full { self.old.made ≡ most → IsErr result }
        ensures err { OnErr result (self.new ≡ self.old) }
    {
        if self.made == u64::MAX {
            return Err(HeapFault::Full);
        }
        make_room(&mut self.slots)?;
        let serial = self.made;
        let slot = place(&mut self.slots, serial, kind, words);
        self.made += 1;
        Ok(Ref { slot, serial })
    }

    /// A block of one word, a reference to another block, to which there is then one reference more.
    ///
    /// # Errors
    /// 94 `Full` exactly where 18,446,744,073,709,551,615 blocks were made before, or there are as many references to the
    /// other block; `NoMemory`. Then the heap is as before.
    pub fn add_ref(&mut self, kind: Kind, r: Ref) -> Result<Ref, HeapFault>
        requires no_file { fd_number_of kind ≡ None }
        requires live { IsLive self.old r.serial }
        ensures serial { IfOk result (λ made. made.serial ≡ self.old.made) }
        ensures ok { (b : Block) → at self.old r.serial ≡ Some b → OnOk result (self.new ≡ with_new (with_block self.old r.serial (one_more b)) (fresh kind (wide (refer (Some r.serial) ∷ [])))) }
        ensures outside { IfOk result (λ made. (n : ℕ) → outside self.new n ≡ outside self.old n + one made.serial n) }
        ensures fault { IfErr result (IsRefFault self.old r.serial) }
        ensures full { self.old.made ≡ most → IsErr result }
        ensures full_count { count (at self.old) r.serial ≡ most → IsErr result }
        ensures err { OnErr result (self.new ≡ self.old) }
    {
        if self.made == u64::MAX {
            return Err(HeapFault::Full);
        }
        let words = single(self.alloc, Word::Refer(Some(r)))?;
        make_room(&mut self.slots)?;
        match raise(&mut self.slots, r) {
            Ok(()) => {}
            Err(fault) => return Err(fault),
        }
        let serial = self.made;
        let slot = place(&mut self.slots, serial, kind, words);
        self.made += 1;
        Ok(Ref { slot, serial })
    }

    /// A record of one plain word, the number of an open file. It also makes the room that `lost` needs for the number.
    ///
    /// # Errors
    /// As `alloc`.
    pub fn alloc_fd(&mut self, number: u32) -> Result<Ref, HeapFault>
        ensures serial { IfOk result (λ r. r.serial ≡ self.old.made) }
        ensures ok { OnOk result (self.new ≡ with_new self.old (fresh (Kind.Fd number) (wide (plain number ∷ [])))) }
        ensures outside { IfOk result (λ r. (n : ℕ) → outside self.new n ≡ outside self.old n + one r.serial n) }
        ensures fault { IfErr result (λ e. e ≡ make_fault self.old) }
        ensures full { self.old.made ≡ most → IsErr result }
        ensures err { OnErr result (self.new ≡ self.old) }
    {
        if self.made == u64::MAX {
            return Err(HeapFault::Full);
        }
        let words = single(self.alloc, Word::Plain(number))?;
        let numbered = room_for(&mut self.lost, self.numbered)?;
        make_room(&mut self.slots)?;
        let serial = self.made;
        let slot = place(&mut self.slots, serial, Kind::Fd { number }, words);
        self.made += 1;
        self.numbered = numbered;
        Ok(Ref { slot, serial })
    }

    /// Drops a block to which the caller has the only reference, which refers to nothing, and makes a zeroed record as
    /// `alloc` does, in the slot of the dropped one.
    ///
    /// # Errors
    /// As `alloc`.
    pub fn reuse(&mut self, r: Ref, map: &[bool]) -> Result<Ref, HeapFault>
        requires { IsAlone self.old r.serial }
        ensures serial { IfOk result (λ r. r.serial ≡ self.old.made) }
        ensures ok { OnOk result (Reuses self.old self.new r.serial (fresh Kind.Record (wide (blank_cells map.now)))) }
        ensures outside { IfOk result (λ made. (n : ℕ) → outside self.new n + one r.serial n ≡ outside self.old n + one made.serial n) }
        ensures fault { IfErr result (λ e. e ≡ make_fault self.old) }
        ensures full { self.old.made ≡ most → IsErr result }
        ensures err { OnErr result (self.new ≡ self.old) }
    {
        if self.made == u64::MAX {
            return Err(HeapFault::Full);
        }
        let words = blank_words(self.alloc, map)?;
        empty(&mut self.slots, &mut self.lost, r);
        self.numbered -= self.lost.len();
        let serial = self.made;
        let slot = place(&mut self.slots, serial, Kind::Record, words);
        self.made += 1;
        Ok(Ref { slot, serial })
    }

    /// A block to which the caller has the only reference gets the next serial, and keeps what it is and holds. So it is a
    /// new block, and no block has its old serial. It takes no memory.
    ///
    /// # Errors
    /// 94 `Full` exactly where 18,446,744,073,709,551,615 blocks were made before. Then the heap is as before.
    pub fn renew(&mut self, r: Ref) -> Result<Ref, HeapFault>
        requires { IsSole self.old r.serial }
        ensures serial { IfOk result (λ renewed. renewed.serial ≡ self.old.made) }
        ensures ok { (b : Block) → at self.old r.serial ≡ Some b → OnOk result (self.new ≡ with_new (without_block self.old r.serial) b) }
        ensures gone { OnOk result (at self.new r.serial ≡ None) }
        ensures outside { IfOk result (λ renewed. (n : ℕ) → outside self.new n + one r.serial n ≡ outside self.old n + one renewed.serial n) }
        ensures fault { IfErr result (λ e. e ≡ HeapFault.Full) }
        ensures full { self.old.made ≡ most → IsErr result }
        ensures only_full { IsErr result → self.old.made ≡ most }
        ensures err { OnErr result (self.new ≡ self.old) }
    {
        if self.made == u64::MAX {
            return Err(HeapFault::Full);
        }
        let serial = self.made;
        let slot = rename(&mut self.slots, r, serial);
        self.made += 1;
        Ok(Ref { slot, serial })
    }

    /// One more reference to a block.
    ///
    /// # Errors
    /// 90 `Dead` exactly where the block isn't live; 94 `Full` exactly where its count is 18,446,744,073,709,551,615.
    pub fn hold(&mut self, r: Ref) -> Result<(), HeapFault>
        ensures answer { result ≡ hold_answer (at self.old r.serial) }
        ensures ok { (b : Block) → at self.old r.serial ≡ Some b → OnOk result (self.new ≡ with_block self.old r.serial (one_more b)) }
        ensures outside { OnOk result ((n : ℕ) → outside self.new n ≡ outside self.old n + one r.serial n) }
        ensures err { OnErr result (self.new ≡ self.old) }
    {
        raise(&mut self.slots, r)
    }

    /// Gives one reference to a block away. Where it was the last one, the block goes, and with it all that it alone kept.
    ///
    /// # Errors
    /// 90 `Dead` exactly where the block isn't live.
    pub fn drop_ref(&mut self, r: Ref) -> Result<Freed, HeapFault>
        requires { (b : Block) → at self.old r.serial ≡ Some b → AreHeld self.old (one r.serial) }
        ensures answer { result ≡ answer_for drop_answer (at self.old r.serial) }

        // What stays is what something else keeps. So the last reference takes the block with it, and any other leaves all
        // else as it was.
        ensures drops { OnOk result (Drops self.old self.new (one r.serial)) }
        ensures gone { (b : Block) → at self.old r.serial ≡ Some b → b.count ≡ 1 → at self.new r.serial ≡ None }
        ensures lowered { (b : Block) → at self.old r.serial ≡ Some b → 1 < b.count → (n : ℕ) → at self.new n ≡ at (with_block self.old r.serial (one_less b)) n }
        ensures lists { OnOk result (Lists self.old self.new) }
        ensures outside { OnOk result ((n : ℕ) → outside self.new n + one r.serial n ≡ outside self.old n) }
        ensures made { self.new.made ≡ self.old.made }
        ensures err { OnErr result (self.new ≡ self.old) }
    {
        let count = match look(&self.slots, r) {
            Some(block) => block.count,
            None => return Err(HeapFault::Dead),
        };
        self.drop_words(&[Word::Refer(Some(r))]);
        if count == 1 {
            Ok(Freed::Yes)
        } else {
            Ok(Freed::No)
        }
    }

    /// Gives away the references in these words, as those of a frame, in one step: what stays is what something else
    /// keeps, and `lost` lists the open files of all that went. It takes no memory.
    pub fn drop_words(&mut self, words: &[Word])
        requires { AreHeld self.old (naming (map cell_of words.now)) }
        ensures drops { Drops self.old self.new (naming (map cell_of words.now)) }
        ensures lists { Lists self.old self.new }
        ensures outside { (n : ℕ) → outside self.new n + naming (map cell_of words.now) n ≡ outside self.old n }
        ensures made { self.new.made ≡ self.old.made }
    {
        release(&mut self.slots, &mut self.lost, words);
        self.numbered -= self.lost.len();
    }

    /// Sets word `i` of a block. It changes no count: the caller gives away the reference in the new word, and has the one
    /// in the old word from then on. A compact block takes no address.
    ///
    /// # Errors
    /// 90 `Dead` exactly where the block isn't live; 93 `OutOfBlock` where it has no such word; 91 `NotPointer` where a
    /// reference meets a plain word; 92 `NotData` where a plain value or an address meets a reference word.
    pub fn set_word(&mut self, r: Ref, i: usize, word: Word) -> Result<(), HeapFault>
        requires held { AreHeld self.old (naming (cell_of word ∷ [])) }
        requires taken { (b : Block) → at self.old r.serial ≡ Some b → MayTake b.content (cell_of word) }
        ensures answer { result ≡ set_answer (at self.old r.serial) i (cell_of word) }
        ensures ok { (b : Block) → at self.old r.serial ≡ Some b → OnOk result (self.new ≡ with_block self.old r.serial (with_content b (with_cell b.content i (cell_of word)))) }
        ensures outside { OnOk result ((n : ℕ) → outside self.new n + naming (cell_of word ∷ []) n ≡ outside self.old n + naming (word_in (at self.old r.serial) i) n) }
        ensures err { OnErr result (self.new ≡ self.old) }
    {
        put(&mut self.slots, r, i, word)
    }

    /// Adds numbers behind those of a compact block.
    ///
    /// # Errors
    /// 90 `Dead` exactly where the block isn't live; `NoMemory`. Then the heap is as before.
    pub fn append(&mut self, r: Ref, more: &[u32]) -> Result<(), HeapFault>
        requires { (b : Block) → at self.old r.serial ≡ Some b → IsCompact b.content }
        ensures ok { (b : Block) → at self.old r.serial ≡ Some b → OnOk result (self.new ≡ with_block self.old r.serial (with_content b (with_more b.content more.now))) }
        ensures outside { OnOk result ((n : ℕ) → outside self.new n ≡ outside self.old n) }
        ensures fault { IfErr result (λ e. e ≡ extend_fault (at self.old r.serial)) }
        ensures dead { at self.old r.serial ≡ None → result ≡ Err HeapFault.Dead }
        ensures err { OnErr result (self.new ≡ self.old) }
    {
        extend(&mut self.slots, r, more)
    }

    /// Keeps the words of a block so that they take addresses: a compact block is one no more. Its words, what it is and
    /// how many references to it there are stay as they were.
    ///
    /// # Errors
    /// 90 `Dead` exactly where the block isn't live; `NoMemory`, only of a compact block. Then the heap is as before.
    pub fn widen(&mut self, r: Ref) -> Result<(), HeapFault>
        ensures ok { (b : Block) → at self.old r.serial ≡ Some b → OnOk result (self.new ≡ with_block self.old r.serial (widened b)) }
        ensures outside { OnOk result ((n : ℕ) → outside self.new n ≡ outside self.old n) }
        ensures fault { IfErr result (λ e. e ≡ extend_fault (at self.old r.serial)) }
        ensures wide { (b : Block) → at self.old r.serial ≡ Some b → numbers_in b.content ≡ None → IsOk result }
        ensures dead { at self.old r.serial ≡ None → result ≡ Err HeapFault.Dead }
        ensures err { OnErr result (self.new ≡ self.old) }
    {
        widen(&mut self.slots, self.alloc, r)
    }
}

// Zeroed words by their marks.
fn blank_list(alloc: Global, marks: &[bool]) -> Result<Vec<Word>, AllocError>
    ensures { IfOk result (λ words. words.items ≡ map blank_word marks.now) }
{
    marks
        .iter()
        .map(|marked| if *marked {
            Word::Refer(None)
        } else {
            Word::Plain(0)
        })
        .collect(alloc)
}

fn blank_words(alloc: Global, map: &[bool]) -> Result<Words, AllocError>
    ensures { IfOk result (λ words. words ≡ wide (blank_cells map.now)) }
{
    let words = blank_list(alloc, map)?;
    Ok(Words::wide(words))
}

fn single(alloc: Global, word: Word) -> Result<Words, AllocError>
    ensures { IfOk result (λ words. words ≡ wide (cell_of word ∷ [])) }
{
    let words = vec![in alloc; word]?;
    Ok(Words::wide(words))
}

// Room for one more number than these.
fn room_for(lost: &mut Vec<u32>, numbered: usize) -> Result<usize, AllocError>
    requires { numbered ≤ vec_capacity lost.old }
    ensures room { IfOk result (λ n. (n ≡ numbered + 1) × (n ≤ vec_capacity lost.new)) }
    ensures capacity { vec_capacity lost.old ≤ vec_capacity lost.new }
    ensures items { lost.new.items ≡ lost.old.items }
{
    if numbered < lost.capacity() {
        return Ok(numbered + 1);
    }
    let more = match (numbered - lost.len()).checked_add(1) {
        Some(more) => more,
        None => return Err(AllocError),
    };
    lost.reserve(more)?;
    let _capacity = lost.capacity();
    Ok(numbered + 1)
}
