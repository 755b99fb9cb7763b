//! Words and numbers that are put into blocks.

ghost use Rattle.std.specs.Prelude.{◌≡◌, ℕ, ◌+◌, pos, IfOk, OnOk};
ghost use Rattle.limbo_values.specs.Numbers.{kind_of, value_of};
ghost use Rattle.ref_heap.specs.Store.{AreHeld, outside};
ghost use Rattle.dis_places.specs.View.{view_world};
ghost use Rattle.dis_places.specs.Words.{view_word, GivesFault};
ghost use Rattle.dis_places.specs.Words as places;
ghost use Rattle.dis_stores.specs.Storing.{block_read, block_stored, named};
ghost use Rattle.dis_opening.specs.Loading.{number_stored, numbers_stored};
ghost use Rattle.dis_opening.specs.Starting.{Gives};

use crate::fault::StartFault;
use crate::loading::Base;
use crate::numbers::{first_number, width};
use dis_places::{Fault, Frame, Halt, Memory, Place, Process, Ref, Spot, Word, data_of, read};
use dis_results::put_number;
use dis_stores::put;
use limbo_values::{Kind, Number};
use std::alloc::Global;

// A process without words: what is put into blocks is no process's doing.
fn nobody(alloc: Global, instance: Ref) -> Process {
    Process {
        number: 0,
        frame: Frame {
            serial: 0,
            instance,
            pc: 0,
            words: Vec::new(alloc),
        },
        below: Vec::new(alloc),
        made: Vec::new(alloc),
        printing: None,
    }
}

/// The word at a byte of a block.
pub(crate) fn word_at(alloc: Global, memory: &Memory, block: Ref, at: i64) -> Result<Word, Fault>
    ensures { GivesFault view_word result (block_read (view_world memory.now) block.serial at) }
{
    let nobody = nobody(alloc, block);
    read(memory, &nobody, Spot::Far(Place::Block(block), at))
}

/// Puts a word over one of its kind, and gives back that one. The caller gives away the reference in the new word, and has the one in the
/// old word from then on.
pub(crate) fn put_word(
    alloc: Global,
    memory: &mut Memory,
    block: Ref,
    at: i64,
    new: Word,
) -> Result<Word, Halt>
    requires held { AreHeld memory.old.heap (named new) }
    ensures gives { places.Gives (λ _. view_world memory.new) result
        (block_stored (view_world memory.old) block.serial at (view_word new)) }
    ensures exchanges { IfOk result (λ was. (n : ℕ) → outside memory.new.heap n + named new n
        ≡ outside memory.old.heap n + named was n) }
    ensures tables { memory.new.tables ≡ memory.old.tables }
{
    let mut nobody = nobody(alloc, block);
    put(memory, &mut nobody, Spot::Far(Place::Block(block), at), new)
}

// Puts a number over one of its kind.
fn put_one(
    alloc: Global,
    memory: &mut Memory,
    block: Ref,
    at: i64,
    number: Number,
) -> Result<(), Halt>
    ensures gives { places.Gives (λ _. view_world memory.new) result
        (number_stored (kind_of number) (view_world memory.old) block.serial at (value_of number)) }
    ensures held { OnOk result ((n : ℕ) → outside memory.new.heap n ≡ outside memory.old.heap n) }
    ensures tables { OnOk result (memory.new.tables ≡ memory.old.tables) }
{
    let mut nobody = nobody(alloc, block);
    put_number(
        memory,
        &mut nobody,
        Spot::Far(Place::Block(block), at),
        number,
    )
}

// Puts a number at a byte whose number may be too great for any memory.
fn put_at(
    alloc: Global,
    memory: &mut Memory,
    base: Base,
    offset: u64,
    number: Number,
) -> Result<(), StartFault>
    ensures gives { Gives (λ _. view_world memory.new) result
        (number_stored (kind_of number) (view_world memory.old) base.block.serial (pos (base.from + offset)) (value_of number)) }
    ensures held { OnOk result ((n : ℕ) → outside memory.new.heap n ≡ outside memory.old.heap n) }
    ensures tables { OnOk result (memory.new.tables ≡ memory.old.tables) }
{
    let at = base.byte(offset)?;
    match put_one(alloc, memory, base.block, at, number) {
        Ok(()) => Ok(()),
        Err(halt) => Err(StartFault::from(halt)),
    }
}

/// Puts the numbers that bytes make into the block, one behind the other, each over one of its kind.
pub(crate) fn put_numbers(
    alloc: Global,
    memory: &mut Memory,
    base: Base,
    kind: Kind,
    offset: u32,
    content: &[u8],
) -> Result<(), StartFault>
    ensures gives { Gives (λ _. view_world memory.new) result
        (numbers_stored kind (view_world memory.old) base.block.serial (base.from + offset) content.now) }
    ensures held { OnOk result ((n : ℕ) → outside memory.new.heap n ≡ outside memory.old.heap n) }
    ensures tables { OnOk result (memory.new.tables ≡ memory.old.tables) }
{
    match data_of(&memory.heap, base.block) {
        Ok(_) => {}
        Err(_) => return Err(StartFault::Malformed),
    }
    let mut at = 0;
    while at < content.len() {
        let Some(number) = first_number(kind, &content[at..]) else {
            return Err(StartFault::Malformed);
        };
        match put_at(alloc, memory, base, u64::from(offset) + at as u64, number) {
            Ok(()) => {}
            Err(fault) => return Err(fault),
        }
        at += width(kind);
    }
    Ok(())
}
