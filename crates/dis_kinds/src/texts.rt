//! Strings.

ghost use Rattle.std.specs.Prelude.{◌≡◌, OnOk};
ghost use Rattle.std.specs.Option.{option_map};
ghost use Rattle.ref_heap.specs.Words.{Content};
ghost use Rattle.ref_heap.specs.declared.word.Ref.{Ref as CodeRef};
ghost use Rattle.dis_meaning.specs.Words as words;
ghost use Rattle.dis_memory.specs.Blocks as blocks;
ghost use Rattle.dis_memory.specs.Kinds as meaning;
ghost use Rattle.dis_places.specs.declared.memory.Tables.{Tables};
ghost use Rattle.dis_places.specs.Blocks.{block_by, numbers_of};
ghost use Rattle.dis_places.specs.View.{view_world};
ghost use Rattle.dis_places.specs.Words.{GivesFault};

use dis_places::{Fault, Memory, Ref};
use ref_heap::Kind;

// Strings alone are texts.
fn text_kind(kind: Kind) -> Result<(), Fault>
    ensures text { (t : Tables) (c : Content) → GivesFault (λ _. numbers_of c) result (meaning.text_in (block_by t kind c)) }
    ensures kind { OnOk result (kind ≡ Kind.Text) }
{
    match kind {
        Kind::Text => Ok(()),
        _ => Err(Fault::TypeCheck),
    }
}

fn text_in(memory: &Memory, block: Ref) -> Result<&[u32], Fault>
    ensures { GivesFault (λ text. text.now) result
        (words.◌>>=◌ (blocks.block (view_world memory.now) block.serial) meaning.text_in) }
{
    memory.heap.stands();
    match memory.heap.kind_of(block) {
        Ok(kind) => match text_kind(kind) {
            Ok(()) => match memory.heap.numbers(block) {
                Some(text) => Ok(text),
                None => Err(Fault::TypeCheck),
            },
            Err(fault) => Err(fault),
        },
        Err(_) => Err(Fault::DeadAddress),
    }
}

/// The characters of the string that a reference leads to. That of nil is empty.
pub fn text_of(memory: &Memory, reference: Option<Ref>) -> Result<&[u32], Fault>
    ensures { GivesFault (λ text. text.now) result
        (meaning.text_at (view_world memory.now) (option_map (λ (r : CodeRef). r.serial) reference)) }
{
    match reference {
        Some(block) => text_in(memory, block),
        None => Ok(&[]),
    }
}
