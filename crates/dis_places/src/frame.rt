ghost use Rattle.std.specs.Prelude.{◌≡◌, IfOk};
ghost use Rattle.dis_meaning.specs.Words as meaning;
ghost use Rattle.dis_places.specs.Words.{view_word, view_words};

use dis_file::TypeDesc;
use ref_heap::{Ref, Word};
use std::alloc::{AllocError, Global};

/// A frame: its serial, the block of the instance whose code it runs, the place in that code, and its words.
#[derive(Drop)]
pub struct Frame {
    pub serial: u64,
    pub instance: Ref,
    pub pc: usize,
    pub words: Vec<Word>,
}

fn blank_word(desc: &TypeDesc, k: u32) -> Word
    ensures { view_word result ≡ meaning.blank_word desc.now k }
{
    if desc.is_reference(k) {
        Word::Refer(None)
    } else {
        Word::Plain(0)
    }
}

/// The words of a type, as they are made: numbers are 0, references name nothing.
pub fn blank(alloc: Global, desc: &TypeDesc) -> Result<Vec<Word>, AllocError>
    ensures { IfOk result (λ words. view_words words.items ≡ meaning.blank desc.now) }
{
    let count = desc.size / 4;
    let mut words = Vec::with_capacity(alloc, count as usize)?;
    for k in 0..count {
        words.push(blank_word(desc, k))?;
    }
    Ok(words)
}
