ghost use Rattle.std.specs.Prelude.{◌≡◌, map, IfOk, IfErr, IsErr, OnErr};
ghost use Rattle.limbo_values.specs.Numbers.{number_of, value_of};
ghost use Rattle.limbo_values.specs.Conversions.{number_read, number_text};
ghost use Rattle.ref_heap.specs.declared.kind.Kind.TheVariants as kinds;
ghost use Rattle.ref_heap.specs.Words.{compact};
ghost use Rattle.ref_heap.specs.Store.{fresh};
ghost use Rattle.ref_heap.specs.Answers.{most};
ghost use Rattle.dis_values.specs.Making.{Makes, IsMakeFault, serial_of};
ghost use Rattle.dis_values.specs.Texts.{text_of, character as character_of};

use crate::texts::{new_text, to_text};
use limbo_values::{Kind, Number};
use ref_heap::{Heap, HeapFault, Ref};
use std::alloc::{AllocError, Global};

/// A new text, of the decimal digits of a number behind a minus sign where it is below 0: what `cvtwc` and `cvtlc` give.
///
/// # Errors
/// 94 `Full` exactly where all serials are used; `NoMemory`. Then the heap is as before.
pub fn text_of_number(alloc: Global, heap: &mut Heap, number: Number) -> Result<Ref, HeapFault>
    ensures ok { IfOk result (λ r. Makes heap.old heap.new r.serial (fresh kinds.Text (compact (number_text (value_of number))))) }
    ensures fault { IfErr result (IsMakeFault heap.old) }
    ensures full { heap.old.made ≡ most → IsErr result }
    ensures err { OnErr result (heap.new ≡ heap.old) }
{
    let text = number.to_text(alloc)?;
    new_text(alloc, heap, &text)
}

/// The number of a kind at the front of a text, 0 where there is none: what `cvtcw` and `cvtcl` give.
///
/// # Errors
/// Want of memory.
pub fn number_in_text(
    alloc: Global,
    heap: &Heap,
    kind: Kind,
    text: Option<Ref>,
) -> Result<Number, AllocError>
    ensures { IfOk result (λ n. n ≡ number_of kind (number_read kind (map character_of (text_of heap.now (serial_of text))))) }
{
    let text = to_text(alloc, heap, text)?;
    Ok(limbo_values::number_of_text(kind, &text))
}
