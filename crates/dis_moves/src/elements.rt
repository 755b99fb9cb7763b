//! Words of a value that is the element of a list's cell.

ghost use Rattle.std.specs.Prelude.{IfOk};
ghost use Rattle.dis_memory.specs.Copies as copies;
ghost use Rattle.dis_copies.specs.Spans.{AreLive};
ghost use Rattle.dis_kinds.specs.Views.{view_linked};
ghost use Rattle.dis_places.specs.Words.{view_words, Gives};

use dis_file::TypeDesc;
use dis_kinds::typed_words;
use dis_places::{Halt, Memory, Process, Ref, Region, Word};
use std::alloc::Global;

/// The words of a value of a type that a cell has, all of whose references lead to blocks that are there. They stand behind the reference
/// to the rest.
pub(crate) fn element_value(
    alloc: Global,
    memory: &Memory,
    process: &Process,
    cell: Ref,
    desc: &TypeDesc,
) -> Result<Vec<Word>, Halt>
    ensures words { Gives (λ found. view_words found.items) result (copies.typed_words desc.now (view_linked memory.now cell).element 0) }
    ensures live { IfOk result (λ found. AreLive memory.now.heap found.items) }
{
    memory.heap.stands();
    typed_words(alloc, memory, process, desc, Region::Block(cell), 1)
}
