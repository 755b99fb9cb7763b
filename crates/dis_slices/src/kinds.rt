//! Types of elements.

ghost use Rattle.std.specs.Prelude.{◌≡◌, []};
ghost use Rattle.std.specs.Option.{option_map};
ghost use Rattle.dis_memory.specs.Arrays as arrays;
ghost use Rattle.dis_memory.specs.Blocks as blocks;
ghost use Rattle.dis_kinds.specs.Views.{view_elements};
ghost use Rattle.dis_places.specs.Blocks.{type_by};
ghost use Rattle.dis_places.specs.Words.{GivesFault};

use dis_file::TypeDesc;
use dis_kinds::Elements;
use dis_places::{Fault, Memory, Tables};

// Two types of one size, with one map.
fn are_alike(a: &TypeDesc, b: &TypeDesc) -> bool
    ensures { result ≡ arrays.are_alike a.now b.now }
{
    a.size == b.size && a.map.as_slice() == b.map.as_slice()
}

// A type of elements of no bytes.
fn is_empty(desc: &TypeDesc) -> bool
    ensures right { result ≡ arrays.are_alike desc.now (record { size = 0; map = [] }) }
    ensures left { result ≡ arrays.are_alike (record { size = 0; map = [] }) desc.now }
{
    desc.size == 0 && desc.map.as_slice().is_empty()
}

// A type is alike with the one of this number.
fn is_like(desc: &TypeDesc, tables: &Tables, other: u32) -> bool
    ensures { result ≡ arrays.are_alike desc.now (type_by tables.now other) }
{
    match tables.types.get(other as usize) {
        Some(other) => are_alike(desc, other),
        None => is_empty(desc),
    }
}

// The type of this number has no bytes.
fn is_nothing(tables: &Tables, other: u32) -> bool
    ensures { result ≡ arrays.are_alike (record { size = 0; map = [] }) (type_by tables.now other) }
{
    match tables.types.get(other as usize) {
        Some(other) => is_empty(other),
        None => true,
    }
}

// The types of these numbers are alike.
fn are_one(tables: &Tables, a: u32, b: u32) -> bool
    ensures { result ≡ arrays.are_alike (type_by tables.now a) (type_by tables.now b) }
{
    match tables.types.get(a as usize) {
        Some(desc) => is_like(desc, tables, b),
        None => is_nothing(tables, b),
    }
}

/// Both are of elements of one type, or one of them is nil.
pub(crate) fn of_one_type(
    memory: &Memory,
    source: Option<Elements>,
    target: Option<Elements>,
) -> Result<(), Fault>
    ensures { GivesFault (λ _. option_map (view_elements memory.now) target) result
        (arrays.of_one_type (option_map (view_elements memory.now) source) (option_map (view_elements memory.now) target)) }
{
    let Some(source) = source else {
        return Ok(());
    };
    let Some(target) = target else {
        return Ok(());
    };
    if are_one(&memory.tables, source.element, target.element) {
        Ok(())
    } else {
        Err(Fault::TypeCheck)
    }
}

// Whether elements refer to anything.
fn refers_in(desc: &TypeDesc) -> bool
    ensures { result ≡ blocks.refers desc.now }
{
    let count = desc.size / 4;
    for k in 0..count {
        if desc.is_reference(k) {
            return true;
        }
    }
    false
}

/// Whether elements of the type of this number refer to anything.
pub(crate) fn refers(tables: &Tables, number: u32) -> bool
    ensures { result ≡ blocks.refers (type_by tables.now number) }
{
    match tables.types.get(number as usize) {
        Some(desc) => refers_in(desc),
        None => false,
    }
}
