//! Blocks whose words operands reach.

ghost use Rattle.std.specs.Prelude.{◌≡◌, IfOk};
ghost use Rattle.heap_model.specs.Heap as heap_list;
ghost use Rattle.ref_heap.specs.Words.{Content};
ghost use Rattle.ref_heap.specs.Store.{at};
ghost use Rattle.dis_meaning.specs.Words as words;
ghost use Rattle.dis_memory.specs.Blocks.{reached};
ghost use Rattle.dis_places.specs.declared.memory.Tables.{Tables};
ghost use Rattle.dis_places.specs.declared.spots.Region.TheVariants as region;
ghost use Rattle.dis_places.specs.Blocks.{block_by, view_heap, words_of};
ghost use Rattle.dis_places.specs.Regions.{block_words};
ghost use Rattle.dis_places.specs.Words.{GivesFault};

use crate::fault::Fault;
use crate::spots::Region;
use ref_heap::{Heap, Kind, Ref};

// Operands reach the words of records, of arrays, and of the data of instances.
#[inline(always)]
fn reached(kind: Kind) -> Result<(), Fault>
    ensures { (t : Tables) (c : Content) → GivesFault (λ _. words_of c) result (reached (block_by t kind c)) }
{
    match kind {
        Kind::Record => Ok(()),
        Kind::Fd { .. } => Ok(()),
        Kind::Array { .. } => Ok(()),
        Kind::Instance { .. } => Ok(()),
        Kind::Text => Err(Fault::TypeCheck),
        Kind::Slice { .. } => Err(Fault::TypeCheck),
        Kind::Cell => Err(Fault::TypeCheck),
        Kind::Channel { .. } => Err(Fault::TypeCheck),
        Kind::Sys { .. } => Err(Fault::TypeCheck),
    }
}

/// The words of a block that operands reach.
#[inline]
pub fn data_of(heap: &Heap, r: Ref) -> Result<Region, Fault>
    ensures words { (t : Tables) → GivesFault (λ _. block_words (at heap.now r.serial)) result
        (words.◌>>=◌ (words.or_wrong words.dead_address (heap_list.at (view_heap t heap.now) r.serial)) reached) }
    ensures region { IfOk result (λ g. g ≡ region.Block r) }
{
    heap.stands();
    match heap.kind_of(r) {
        Ok(kind) => match reached(kind) {
            Ok(()) => Ok(Region::Block(r)),
            Err(fault) => Err(fault),
        },
        Err(_) => Err(Fault::DeadAddress),
    }
}
