//! Lists.

ghost use Rattle.std.specs.Prelude.{◌≡◌, slice_get, IfOk};
ghost use Rattle.std.specs.Option.{option_map};
ghost use Rattle.ref_heap.specs.Words.{Content};
ghost use Rattle.ref_heap.specs.declared.word.Ref.{Ref as CodeRef};
ghost use Rattle.dis_meaning.specs.Words as words;
ghost use Rattle.dis_memory.specs.Blocks as blocks;
ghost use Rattle.dis_memory.specs.Kinds as meaning;
ghost use Rattle.dis_places.specs.declared.memory.Tables.{Tables};
ghost use Rattle.dis_places.specs.Blocks.{block_by};
ghost use Rattle.dis_places.specs.View.{view_world};
ghost use Rattle.dis_places.specs.Words.{view_word, GivesFault};
ghost use Rattle.dis_kinds.specs.Views.{linked, view_linked};

use crate::arrays::first_of;
use dis_places::{Fault, Memory, Ref, Word};
use ref_heap::Kind;

// Cells alone are parts of lists.
fn cell_kind(kind: Kind) -> Result<(), Fault>
    ensures { (t : Tables) (c : Content) → GivesFault (λ _. linked c) result (meaning.cell_in (block_by t kind c)) }
{
    match kind {
        Kind::Cell => Ok(()),
        _ => Err(Fault::TypeCheck),
    }
}

fn cell_in(memory: &Memory, block: Ref) -> Result<(), Fault>
    ensures { GivesFault (λ _. view_linked memory.now block) result
        (words.◌>>=◌ (blocks.block (view_world memory.now) block.serial) meaning.cell_in) }
{
    memory.heap.stands();
    match memory.heap.kind_of(block) {
        Ok(kind) => cell_kind(kind),
        Err(_) => Err(Fault::DeadAddress),
    }
}

/// The first cell of a list. Nil has none.
pub fn first_cell(memory: &Memory, reference: Option<Ref>) -> Result<Option<Ref>, Fault>
    ensures cell { GivesFault (option_map (view_linked memory.now)) result
        (meaning.first_cell (view_world memory.now) (option_map (λ (r : CodeRef). r.serial) reference)) }
    ensures same { IfOk result (λ cell. cell ≡ reference) }
{
    match reference {
        Some(block) => {
            cell_in(memory, block)?;
            Ok(Some(block))
        }
        None => Ok(None),
    }
}

/// The word of this number of a cell's element.
pub fn element_word(memory: &Memory, cell: Ref, k: usize) -> Result<Word, Fault>
    ensures { GivesFault view_word result
        (words.or_wrong words.type_check (slice_get (view_linked memory.now cell).element k)) }
{
    let Ok(count) = memory.heap.len_of(cell) else {
        return Err(Fault::TypeCheck);
    };
    if k >= count {
        return Err(Fault::TypeCheck);
    }
    match memory.heap.get(cell, k + 1) {
        Ok(word) => Ok(word),
        Err(_) => Err(Fault::TypeCheck),
    }
}

/// The rest of a cell's list.
pub fn rest_of(memory: &Memory, cell: Ref) -> Option<Ref>
    ensures { option_map (λ (r : CodeRef). r.serial) result ≡ (view_linked memory.now cell).rest }
{
    first_of(&memory.heap, cell)
}

/// How many cells a list has. One that comes back to itself is none.
pub fn list_length(memory: &Memory, list: Option<Ref>) -> Result<u64, Fault>
    ensures { GivesFault (λ n. n) result
        (meaning.list_length (view_world memory.now) (option_map (λ (r : CodeRef). r.serial) list)) }
{
    let most = memory.heap.made();
    let mut left = list;
    for count in 0..most {
        match first_cell(memory, left)? {
            Some(cell) => left = rest_of(memory, cell),
            None => return Ok(count),
        }
    }
    match left {
        Some(_) => Err(Fault::TypeCheck),
        None => Ok(most),
    }
}
