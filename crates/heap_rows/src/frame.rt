ghost use Rattle.std.specs.Prelude.{◌≡◌, ℕ, ◌≤◌, ◌++◌, ◌∷◌, [], map, false, OnOk, OnErr};
ghost use Rattle.ref_heap.specs.Words.{Content, MayTake, cell_of, naming};
ghost use Rattle.ref_heap.specs.Store.{outside};

use dis_values::{cons, list_len};
use ref_heap::{Freed, Heap, HeapFault, Place, Ref, Word};
use std::alloc::{AllocError, Global};

/// A heap beside the words of one frame, whose references are among those that are held outside of blocks.
#[derive(Drop)]
pub struct Frame {
    heap: Heap,
    words: Vec<Word>,
    ghost held: { (n : ℕ) → naming (map cell_of words.items) n ≤ outside heap n },
}

// Whether a word is an address, which a compact block doesn't take.
fn is_address(word: &Word) -> bool
    ensures { result ≡ false → (c : Content) → MayTake c (cell_of word.now) }
{
    match word {
        Word::Plain(_) => false,
        Word::Refer(_) => false,
        Word::Address { place, at } => match place {
            Place::Block(_) => true,
            Place::Frame(_) => true,
        },
    }
}

// Adds a word behind the others.
fn keep(words: &mut Vec<Word>, word: Word) -> Result<(), HeapFault>
    ensures ok { OnOk result (words.new.items ≡ words.old.items ++ word ∷ []) }
    ensures err { OnErr result (words.new.items ≡ words.old.items) }
{
    match words.push(word) {
        Ok(()) => Ok(()),
        Err(_) => Err(HeapFault::NoMemory),
    }
}

/// Sets word `i` of a block to a number.
pub fn put(heap: &mut Heap, r: Ref, i: u32, number: u32) -> Result<(), HeapFault>
    ensures ok { OnOk result ((n : ℕ) → outside heap.new n ≡ outside heap.old n) }
    ensures err { OnErr result (heap.new ≡ heap.old) }
{
    let word = Word::Plain(number);
    if is_address(&word) {
        return Err(HeapFault::NotData);
    }
    heap.set_word(r, i as usize, word)
}

impl Frame {
    pub fn new(alloc: Global) -> Result<Frame, AllocError> {
        let heap = Heap::new(alloc)?;
        Ok(Frame {
            heap,
            words: Vec::new(alloc),
        })
    }

    pub fn heap(&self) -> &Heap {
        &self.heap
    }

    /// Makes a record, and keeps the reference to it as the last word.
    pub fn alloc(&mut self, map: &[bool]) -> Result<Ref, HeapFault> {
        let r = self.heap.alloc(map)?;
        keep(&mut self.words, Word::Refer(Some(r)))?;
        Ok(r)
    }

    /// The same of a block for an open file.
    pub fn alloc_fd(&mut self, number: u32) -> Result<Ref, HeapFault> {
        let r = self.heap.alloc_fd(number)?;
        keep(&mut self.words, Word::Refer(Some(r)))?;
        Ok(r)
    }

    /// One more reference to a block, as the last word.
    pub fn hold(&mut self, r: Ref) -> Result<(), HeapFault> {
        self.heap.hold(r)?;
        keep(&mut self.words, Word::Refer(Some(r)))
    }

    /// Keeps nil as the last word.
    pub fn push_nil(&mut self) -> Result<(), HeapFault> {
        keep(&mut self.words, Word::Refer(None))
    }

    /// Drops the reference in the last word.
    pub fn drop_last(&mut self) -> Result<Freed, HeapFault> {
        match self.words.pop() {
            Some(Word::Refer(Some(r))) => self.heap.drop_ref(r),
            _ => Ok(Freed::No),
        }
    }

    /// Drops the references in all words in one step.
    pub fn drop_all(&mut self) {
        self.heap.drop_words(&self.words);
        self.words.clear();
    }

    /// Moves the last word into word `i` of a block.
    pub fn store(&mut self, r: Ref, i: u32) -> Result<(), HeapFault> {
        match self.words.pop() {
            Some(word) => {
                if is_address(&word) {
                    return Err(HeapFault::NotData);
                }
                self.heap.set_word(r, i as usize, word)
            }
            None => Err(HeapFault::NotData),
        }
    }

    /// Sets word `i` of a block to a number.
    pub fn put(&mut self, r: Ref, i: u32, number: u32) -> Result<(), HeapFault> {
        put(&mut self.heap, r, i, number)
    }

    /// What a drop of a reference answers to which no live block belongs.
    pub fn drop_dead(&mut self, r: Ref) -> Option<HeapFault> {
        match self.heap.count_of(r) {
            Ok(_) => None,
            Err(_) => self.heap.drop_ref(r).err(),
        }
    }

    /// Makes a record and uses its block again for another.
    pub fn renew(&mut self, map: &[bool]) -> Result<(Ref, Ref), HeapFault> {
        self.heap.stands();
        let old = self.heap.alloc(map)?;
        self.heap.stands();
        let new = self.heap.reuse(old, map)?;
        keep(&mut self.words, Word::Refer(Some(new)))?;
        Ok((old, new))
    }

    /// How many elements the list has that the last word is.
    pub fn list_len(&self) -> u64 {
        match self.words.last() {
            Some(Word::Refer(list)) => list_len(&self.heap, *list),
            _ => 0,
        }
    }

    /// Puts a cell with a number before the list that the last word is.
    pub fn cons(&mut self, alloc: Global, number: u32) -> Result<(), HeapFault> {
        match self.words.pop() {
            Some(Word::Refer(tail)) => {
                let list = cons(alloc, &mut self.heap, &[Word::Plain(number)], tail)?;
                keep(&mut self.words, Word::Refer(Some(list)))
            }
            _ => Err(HeapFault::NotPointer),
        }
    }
}
