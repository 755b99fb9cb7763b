//! Elements of arrays, into which items go.

ghost use Rattle.std.specs.Prelude.{OnOk};
ghost use Rattle.dis_meaning.specs.Words as words;
ghost use Rattle.dis_memory.specs.Kinds.{elements_at};
ghost use Rattle.dis_memory.specs.Raising.{not_nil};
ghost use Rattle.dis_counts.specs.Opening as opening;
ghost use Rattle.dis_kinds.specs.Views.{view_elements};
ghost use Rattle.dis_places.specs.View.{view_world};
ghost use Rattle.dis_stores.specs.Storing.{block_read};
ghost use Rattle.dis_opening.specs.Loading.{view_base, view_loading, Holds};
ghost use Rattle.dis_opening.specs.Starting.{Gives};

use crate::fault::StartFault;
use crate::loading::{Base, Loading};
use crate::numbers::single;
use crate::puts::word_at;
use dis_kinds::{Elements, elements_of};
use dis_places::{Memory, Ref, reference};
use dis_results::size_of;
use std::alloc::Global;

// The elements to which a byte of a block refers. Nil has none.
fn elements_here(
    alloc: Global,
    memory: &Memory,
    block: Ref,
    at: i64,
) -> Result<Elements, StartFault>
    ensures { Gives (view_elements memory.now) result (words.◌>>=◌ (words.◌>>=◌ (words.◌>>=◌
        (block_read (view_world memory.now) block.serial at) words.reference) (elements_at (view_world memory.now))) not_nil) }
{
    let word = word_at(alloc, memory, block, at)?;
    let array = reference(word)?;
    match elements_of(memory, array)? {
        Some(elements) => Ok(elements),
        None => Err(StartFault::Malformed),
    }
}

// Where an element begins. No memory has bytes whose number has more than 64 bits.
fn element_of(memory: &Memory, elements: Elements, index: u32) -> Result<Base, StartFault>
    ensures { Gives view_base result (opening.element_of index (view_elements memory.now elements)) }
{
    if index >= elements.long {
        return Err(StartFault::Malformed);
    }
    let place = u64::from(elements.start) + u64::from(index);
    match place.checked_mul(u64::from(size_of(memory, elements))) {
        Some(from) => Ok(Base {
            block: elements.array,
            from,
        }),
        None => Err(StartFault::NoMemory),
    }
}

/// The items that follow go into the array whose reference stands there, from the element of an index on.
pub(crate) fn enter(
    alloc: Global,
    loading: &mut Loading,
    offset: u32,
    content: &[u8],
) -> Result<(), StartFault>
    ensures gives { Gives (λ _. view_loading loading.new) result (opening.into_array (view_loading loading.old) offset content.now) }
    ensures holds { OnOk result (Holds loading.old loading.new) }
{
    let Some(index) = single(content) else {
        return Err(StartFault::Malformed);
    };
    let at = loading.here.byte(u64::from(offset))?;
    let elements = elements_here(alloc, &loading.memory, loading.here.block, at)?;
    let here = element_of(&loading.memory, elements, index)?;
    loading.back.push(loading.here)?;
    loading.here = here;
    Ok(())
}

/// They go again where they went before the last array was entered.
pub(crate) fn leave(loading: &mut Loading) -> Result<(), StartFault>
    ensures gives { Gives (λ _. view_loading loading.new) result
        (opening.out_of_array (view_loading loading.old) (view_loading loading.old).back) }
    ensures holds { OnOk result (Holds loading.old loading.new) }
{
    match loading.back.pop() {
        Some(here) => {
            loading.here = here;
            Ok(())
        }
        None => Err(StartFault::Malformed),
    }
}
