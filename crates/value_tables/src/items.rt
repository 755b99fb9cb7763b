//! Items of the module's data.

ghost use Rattle.std.specs.Prelude.{◌≡◌, [], ◌∷◌, pos, IfOk};
ghost use Rattle.std.specs.Int.{to_be_bytes, cast_unsigned, w32};
ghost use Rattle.limbo_types.specs.View.{view_ty};
ghost use Rattle.limbo_typed.specs.Typed.{Module};
ghost use Rattle.dis_objects.specs.Spelled.{IsSpelled};
ghost use Rattle.dis_objects.specs.Objects as objects;
ghost use Rattle.value_code.specs.Objects.{initial_items, byte_item as byte_of};

use dis_file::Item;
use inf_text::{Seq, Text};
use limbo_typed::Constant;
use limbo_types::Ty;
use std::alloc::{AllocError, Global};

/// A text at a place of the data.
///
/// # Errors
/// Want of memory, as which one of 4 GiB or more counts too.
pub fn string_item(alloc: Global, offset: u32, text: &Text) -> Result<Item, AllocError>
    ensures item { IfOk result (λ item. item ≡ objects.string_item offset text.now) }
    ensures spelled { IfOk result IsSpelled }
{
    let content = text.to_utf8(alloc)?;
    if content.len() > u32::MAX as usize {
        return Err(AllocError);
    }
    Ok(Item {
        kind: 3,
        count: content.len() as u32,
        offset,
        content: Seq::from_vec(content),
    })
}

// What a number has in one word: its low 32 bits, where it isn't below -2 ^ 32; those have nothing there.
fn low_word(number: i64) -> u32
    ensures { to_be_bytes w32 result ≡ to_be_bytes w32 (cast_unsigned w32 number) }
{
    if number >= 0 {
        (number.cast_unsigned() % 4_294_967_296) as u32
    } else if number >= -4_294_967_296 {
        (number + 4_294_967_296) as u32
    } else {
        0
    }
}

// A word, the high byte first.
fn item_of(alloc: Global, offset: u32, word: u32) -> Result<Item, AllocError>
    ensures item { IfOk result
        (λ item. item ≡ record { kind = 2; count = 1; offset = offset; content = to_be_bytes w32 word }) }
{
    let bytes = word.to_be_bytes();
    Ok(Item {
        kind: 2,
        count: 1,
        offset,
        content: Seq::from_vec(Vec::from_slice(alloc, &bytes)?),
    })
}

/// A number in one word, the high byte first.
///
/// # Errors
/// Want of memory.
pub fn word_item(alloc: Global, offset: u32, number: i64) -> Result<Item, AllocError>
    ensures item { IfOk result (λ item. item ≡ objects.word_item offset number) }
    ensures spelled { IfOk result IsSpelled }
{
    item_of(alloc, offset, low_word(number))
}

/// A length in one word.
///
/// # Errors
/// Want of memory.
#[tactic(auto, using(crate::proofs::Bytes::low_bytes))]
pub fn length_item(alloc: Global, offset: u32, length: u64) -> Result<Item, AllocError>
    ensures item { IfOk result (λ item. item ≡ objects.word_item offset (pos length)) }
    ensures spelled { IfOk result IsSpelled }
{
    item_of(alloc, offset, (length % 4_294_967_296) as u32)
}

/// A big.
///
/// # Errors
/// Want of memory.
pub fn long_item(alloc: Global, offset: u32, number: i64) -> Result<Item, AllocError>
    ensures item { IfOk result (λ item. item ≡ objects.long_item offset number) }
    ensures spelled { IfOk result IsSpelled }
{
    let bytes = number.to_be_bytes();
    Ok(Item {
        kind: 2,
        count: 2,
        offset,
        content: Seq::from_vec(Vec::from_slice(alloc, &bytes)?),
    })
}

/// A byte: the low 8 bits of a number.
///
/// # Errors
/// Want of memory.
pub fn byte_item(alloc: Global, offset: u32, number: i64) -> Result<Item, AllocError>
    ensures item { (m : Module) → IfOk result (λ item. item ≡ byte_of m offset number) }
    ensures spelled { IfOk result IsSpelled }
{
    let bytes = low_word(number).to_be_bytes();
    Ok(Item {
        kind: 1,
        count: 1,
        offset,
        content: Seq::from_vec(Vec::from_slice(alloc, &bytes[3..])?),
    })
}

/// What a variable of the module begins with, at its place.
///
/// # Errors
/// Want of memory.
#[tactic(auto, using(limbo_types::proofs::View::the_types, crate::proofs::Others::begins_in_word))]
pub fn initial_item(
    alloc: Global,
    ty: &Ty,
    offset: u32,
    value: &Constant,
) -> Result<Item, AllocError>
    ensures item { (m : Module) → IfOk result (λ item. item ∷ [] ≡ initial_items m (view_ty ty.now) offset value.now) }
    ensures spelled { IfOk result IsSpelled }
{
    match value {
        Constant::Chars(text) => string_item(alloc, offset, text),
        Constant::Number(number) => match ty {
            Ty::Byte => byte_item(alloc, offset, *number),
            Ty::Big => long_item(alloc, offset, *number),
            _ => word_item(alloc, offset, *number),
        },
    }
}
