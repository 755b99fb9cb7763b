//! The module's data, one datum behind the other.

ghost use Rattle.std.specs.Prelude.{◌≡◌, ◌+◌, ◌*◌, ◌<◌, ◌^◌, [], ◌∷◌, ℤ, pos, map, length, OnOk, All};
ghost use Rattle.std.specs.Int.{next_multiple_of};
ghost use Rattle.limbo_types.specs.Types as types;
ghost use Rattle.limbo_types.specs.View.{view_ty};
ghost use Rattle.limbo_typed.specs.Typed.{Module};
ghost use Rattle.value_code.specs.Data.{Datum, Text as TextOf, Word, Long, Zero, sorted as sorted_of};
ghost use Rattle.value_code.specs.Code.{constant_data};
ghost use Rattle.value_frames.specs.Frames.{room_for};
ghost use Rattle.value_tables.specs.Growing.{GrowsBy};

use crate::indices::sorted;
use crate::items::{length_item, long_item, string_item, word_item};
use dis_file::Item;
use inf_text::Text;
use limbo_typed::Constant;
use limbo_types::Ty;
use std::alloc::{AllocError, Global};

/// The module's data so far: their items, where they refer to something, and where the next datum stands.
#[derive(Drop)]
pub struct Data {
    pub items: Vec<Item>,
    pub references: Vec<u32>,
    pub place: u32,
}

/// Adds a text.
///
/// # Errors
/// Want of memory.
pub fn put_text(alloc: Global, store: &mut Data, text: &Text) -> Result<(), AllocError>
    requires { store.old.place + 8 < 2 ^ 32 }
    ensures data { (m : Module) → OnOk result (GrowsBy m store.old store.new (TextOf text.now ∷ [])) }
    ensures place { OnOk result (store.new.place ≡ store.old.place + 8) }
{
    let item = string_item(alloc, store.place, text)?;
    store.items.push(item)?;
    store.references.push(store.place)?;
    store.place += 8;
    Ok(())
}

/// Adds a number in one word.
///
/// # Errors
/// Want of memory.
pub fn put_word(alloc: Global, store: &mut Data, number: i64) -> Result<(), AllocError>
    requires { store.old.place + 8 < 2 ^ 32 }
    ensures data { (m : Module) → OnOk result (GrowsBy m store.old store.new (Word number ∷ [])) }
    ensures place { OnOk result (store.new.place ≡ store.old.place + 8) }
{
    let item = word_item(alloc, store.place, number)?;
    store.items.push(item)?;
    store.place += 8;
    Ok(())
}

/// Adds a length in one word.
///
/// # Errors
/// Want of memory.
pub fn put_length(alloc: Global, store: &mut Data, length: u64) -> Result<(), AllocError>
    requires { store.old.place + 8 < 2 ^ 32 }
    ensures data { (m : Module) → OnOk result (GrowsBy m store.old store.new (Word (pos length) ∷ [])) }
    ensures place { OnOk result (store.new.place ≡ store.old.place + 8) }
{
    let item = length_item(alloc, store.place, length)?;
    store.items.push(item)?;
    store.place += 8;
    Ok(())
}

/// Adds a number in two words.
///
/// # Errors
/// Want of memory.
pub fn put_long(alloc: Global, store: &mut Data, number: i64) -> Result<(), AllocError>
    requires { store.old.place + 8 < 2 ^ 32 }
    ensures data { (m : Module) → OnOk result (GrowsBy m store.old store.new (Long number ∷ [])) }
    ensures place { OnOk result (store.new.place ≡ store.old.place + 8) }
{
    let item = long_item(alloc, store.place, number)?;
    store.items.push(item)?;
    store.place += 8;
    Ok(())
}

/// Adds a constant of a type.
///
/// # Errors
/// Want of memory.
#[tactic(auto, using(limbo_types::proofs::View::the_types, crate::proofs::Others::is_word))]
pub fn put_constant(
    alloc: Global,
    store: &mut Data,
    ty: &Ty,
    value: &Constant,
) -> Result<(), AllocError>
    requires { store.old.place + 8 < 2 ^ 32 }
    ensures data { (m : Module) → OnOk result (GrowsBy m store.old store.new (constant_data (view_ty ty.now) value.now)) }
    ensures place { OnOk result (store.new.place ≡ store.old.place + 8) }
{
    match value {
        Constant::Chars(text) => put_text(alloc, store, text),
        Constant::Number(number) => match ty {
            Ty::Big => put_long(alloc, store, *number),
            _ => put_word(alloc, store, *number),
        },
    }
}

// Adds numbers, each in one word.
fn put_words(alloc: Global, store: &mut Data, numbers: &[i64]) -> Result<(), AllocError>
    requires { store.old.place + 8 * length numbers.now < 2 ^ 32 }
    ensures data { (m : Module) → OnOk result (GrowsBy m store.old store.new (map (λ z. Word z) numbers.now)) }
    ensures place { OnOk result (store.new.place ≡ store.old.place + 8 * length numbers.now) }
{
    for number in numbers {
        put_word(alloc, store, *number)?;
    }
    Ok(())
}

/// Adds the indices that an initialiser names, in rising order, each once.
///
/// # Errors
/// Want of memory.
#[tactic(auto, using(crate::proofs::Rows::sorted_few))]
pub fn put_indices(alloc: Global, store: &mut Data, indices: &[i64]) -> Result<(), AllocError>
    requires { store.old.place + 8 * length indices.now < 2 ^ 32 }
    ensures data { (m : Module) → OnOk result (GrowsBy m store.old store.new (map (λ z. Word z) (sorted_of indices.now))) }
    ensures place { OnOk result (store.new.place ≡ store.old.place + 8 * length (sorted_of indices.now)) }
{
    let row = sorted(alloc, indices)?;
    put_words(alloc, store, &row)
}

/// Adds the zero of a type whose values take so many bytes and have references at these places.
///
/// # Errors
/// Want of memory.
pub fn put_zero(store: &mut Data, size: u32, places: &[u32]) -> Result<(), AllocError>
    requires end { store.old.place + size + 8 < 2 ^ 32 }
    requires within { All (λ o. o < size) places.now }
    ensures data { (m : Module) (t : types.Ty) → (room_for m.adts t).size ≡ size → (room_for m.adts t).references ≡ places.now
        → OnOk result (GrowsBy m store.old store.new (Zero t ∷ [])) }
    ensures place { OnOk result (store.new.place ≡ store.old.place + next_multiple_of size 8) }
{
    for place in places {
        store.references.push(store.place + *place)?;
    }
    store.place += size.next_multiple_of(8);
    Ok(())
}
