//! Arrays, and parts of them.

ghost use Rattle.std.specs.Prelude.{◌≡◌, IfOk};
ghost use Rattle.std.specs.Option.{option_map};
ghost use Rattle.ref_heap.specs.Store.{at};
ghost use Rattle.ref_heap.specs.Words.{Content};
ghost use Rattle.ref_heap.specs.declared.word.Ref.{Ref as CodeRef};
ghost use Rattle.dis_meaning.specs.Words as words;
ghost use Rattle.dis_memory.specs.Blocks as blocks;
ghost use Rattle.dis_memory.specs.Kinds as meaning;
ghost use Rattle.dis_places.specs.declared.memory.Tables.{Tables};
ghost use Rattle.dis_places.specs.Blocks.{block_by, words_of};
ghost use Rattle.dis_places.specs.View.{view_world};
ghost use Rattle.dis_places.specs.Words.{GivesFault};
ghost use Rattle.dis_kinds.specs.Views.{first_in, elements_by, named_elements, view_elements};

use dis_places::{Fault, Memory, Ref};
use ref_heap::{Heap, Kind};

/// Elements of an array: whose they are, the number of their type, where they begin in it, and how many there are.
#[derive(Clone, Copy)]
pub struct Elements {
    pub array: Ref,
    pub element: u32,
    pub start: u32,
    pub long: u32,
}

// The block that the first word of a block refers to.
pub(crate) fn first_of(heap: &Heap, block: Ref) -> Option<Ref>
    ensures { option_map (λ (r : CodeRef). r.serial) result ≡ first_in (at heap.now block.serial) }
{
    match heap.get(block, 0) {
        Ok(word) => word.reference(),
        Err(_) => None,
    }
}

// The elements of a block of this kind, which are those of an array.
fn whole(kind: Kind, array: Ref) -> Result<Elements, Fault>
    ensures elements { (t : Tables) (c : Content) → GivesFault (elements_by t (words_of c)) result
        (meaning.all_of array.serial (block_by t kind c)) }
    ensures array { IfOk result (λ e. e.array ≡ array) }
    ensures start { IfOk result (λ e. e.start ≡ 0) }
{
    match kind {
        Kind::Array { element, length } => Ok(Elements {
            array,
            element,
            start: 0,
            long: length,
        }),
        _ => Err(Fault::TypeCheck),
    }
}

// All elements of an array.
fn all_of(memory: &Memory, array: Ref) -> Result<Elements, Fault>
    ensures elements { GivesFault (view_elements memory.now) result
        (words.◌>>=◌ (blocks.block (view_world memory.now) array.serial) (meaning.all_of array.serial)) }
    ensures start { IfOk result (λ e. e.start ≡ 0) }
{
    memory.heap.stands();
    match memory.heap.kind_of(array) {
        Ok(kind) => whole(kind, array),
        Err(_) => Err(Fault::DeadAddress),
    }
}

// So many elements of the array that the word of a part refers to, from one on.
fn part_of(memory: &Memory, part: Ref, start: u32, long: u32) -> Result<Elements, Fault>
    ensures { GivesFault (view_elements memory.now) result (words.◌>>=◌
        (named_elements (view_world memory.now) (first_in (at memory.now.heap part.serial)))
        (λ e. words.Found (meaning.some_of start long e))) }
{
    match first_of(&memory.heap, part) {
        Some(array) => {
            let whole = all_of(memory, array)?;
            Ok(Elements {
                start,
                long,
                ..whole
            })
        }
        None => Err(Fault::TypeCheck),
    }
}

fn elements_in(memory: &Memory, block: Ref) -> Result<Elements, Fault>
    ensures { GivesFault (view_elements memory.now) result (words.◌>>=◌
        (blocks.block (view_world memory.now) block.serial)
        (meaning.elements_in (view_world memory.now) block.serial)) }
{
    memory.heap.stands();
    match memory.heap.kind_of(block) {
        Ok(kind) => match kind {
            Kind::Slice { from, length } => part_of(memory, block, from, length),
            _ => whole(kind, block),
        },
        Err(_) => Err(Fault::DeadAddress),
    }
}

/// The elements that a reference leads to, of the array itself or of part of it. Nil has none.
pub fn elements_of(memory: &Memory, reference: Option<Ref>) -> Result<Option<Elements>, Fault>
    ensures { GivesFault (option_map (view_elements memory.now)) result
        (meaning.elements_at (view_world memory.now) (option_map (λ (r : CodeRef). r.serial) reference)) }
{
    match reference {
        Some(block) => Ok(Some(elements_in(memory, block)?)),
        None => Ok(None),
    }
}
