//! The strings that operands refer to, and ints of operands.

ghost use Rattle.std.specs.Prelude.{◌≡◌};
ghost use Rattle.std.specs.Option.{option_map};
ghost use Rattle.ref_heap.specs.declared.word.Ref.{Ref as CodeRef};
ghost use Rattle.dis_meaning.specs.Words as words;
ghost use Rattle.dis_memory.specs.Kinds.{text_at};
ghost use Rattle.dis_memory.specs.Places as places;
ghost use Rattle.dis_places.specs.View.{view_process, view_spot, view_world};
ghost use Rattle.dis_places.specs.Words.{Gives, GivesFault};

use dis_isa::{Middle, Operand};
use dis_kinds::text_of;
use dis_places::{Fault, Halt, Memory, Process, Ref, Spot, middle_word, reference};
use dis_results::{has_reference, source_reference};

/// The characters of the string that a source refers to.
pub fn source_text<'a>(
    memory: &'a Memory,
    process: &Process,
    source: Operand,
) -> Result<&'a [u32], Halt>
    ensures { Gives (λ text. text.now) result (words.◌>>=◌
        (places.source_reference (view_world memory.now) (view_process process.now) source) (text_at (view_world memory.now))) }
{
    let block = match source_reference(memory, process, source) {
        Ok(block) => block,
        Err(halt) => return Err(halt),
    };
    match text_of(memory, block) {
        Ok(text) => Ok(text),
        Err(fault) => Err(Halt::Fault(fault)),
    }
}

/// The block that a middle refers to, or nothing.
pub(crate) fn middle_reference(
    memory: &Memory,
    process: &Process,
    middle: Middle,
) -> Result<Option<Ref>, Fault>
    ensures { GivesFault (option_map (λ (r : CodeRef). r.serial)) result
        (places.middle_reference (view_world memory.now) (view_process process.now) middle) }
{
    match middle_word(memory, process, middle) {
        Ok(word) => reference(word),
        Err(fault) => Err(fault),
    }
}

/// The characters of the string that a middle refers to.
pub fn middle_text<'a>(
    memory: &'a Memory,
    process: &Process,
    middle: Middle,
) -> Result<&'a [u32], Fault>
    ensures { GivesFault (λ text. text.now) result (words.◌>>=◌
        (places.middle_reference (view_world memory.now) (view_process process.now) middle) (text_at (view_world memory.now))) }
{
    match middle_reference(memory, process, middle) {
        Ok(block) => text_of(memory, block),
        Err(fault) => Err(fault),
    }
}

/// The characters of the string to which the reference at a byte leads.
pub fn text_there<'a>(memory: &'a Memory, process: &Process, spot: Spot) -> Result<&'a [u32], Fault>
    ensures { GivesFault (λ text. text.now) result (words.◌>>=◌
        (places.reference_at (view_world memory.now) (view_process process.now) (view_spot spot)) (text_at (view_world memory.now))) }
{
    match has_reference(memory, process, spot) {
        Ok(block) => text_of(memory, block),
        Err(fault) => Err(fault),
    }
}
