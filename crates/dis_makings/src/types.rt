//! Types of an object by their numbers in memory's tables.

ghost use Rattle.std.specs.Prelude.{◌≡◌, ◌<◌, ◌^◌, true, false, [], length};
ghost use Rattle.dis_memory.specs.Operands as operands;
ghost use Rattle.dis_memory.specs.Step.{type_of_size};
ghost use Rattle.dis_code.specs.Loaded.{HasPlain, IsLoaded};
ghost use Rattle.dis_places.specs.Blocks.{type_by};
ghost use Rattle.dis_places.specs.Words.{GivesFault};

use dis_code::{Code, immediate, middle_immediate, type_at};
use dis_file::TypeDesc;
use dis_isa::{Middle, Operand};
use dis_places::{Fault, Memory, Tables};

// The number in the tables of the type of this number.
fn number_of(memory: &Memory, code: &Code, number: u32) -> Result<u32, Fault>
    requires loaded { IsLoaded memory.now.tables code.now }
    ensures { GivesFault (type_by memory.now.tables) result (operands.type_of code.now.object number) }
{
    match type_at(&code.object, number) {
        Ok(_) => Ok(code.types + number),
        Err(fault) => Err(fault),
    }
}

/// The number in the tables of the type whose number a source is.
pub(crate) fn source_type(memory: &Memory, code: &Code, source: Operand) -> Result<u32, Fault>
    requires loaded { IsLoaded memory.now.tables code.now }
    ensures { GivesFault (type_by memory.now.tables) result (operands.source_type code.now.object source) }
{
    match immediate(source) {
        Ok(number) => number_of(memory, code, number),
        Err(fault) => Err(fault),
    }
}

/// The number in the tables of the type whose number a middle is.
pub(crate) fn middle_type(memory: &Memory, code: &Code, middle: Middle) -> Result<u32, Fault>
    requires loaded { IsLoaded memory.now.tables code.now }
    ensures { GivesFault (type_by memory.now.tables) result (operands.middle_type code.now.object middle) }
{
    match middle_immediate(middle) {
        Ok(number) => number_of(memory, code, number),
        Err(fault) => Err(fault),
    }
}

/// How many bytes an element has of the type of this number.
pub(crate) fn size_of(tables: &Tables, number: u32) -> u32
    ensures { result ≡ (type_by tables.now number).size }
{
    match tables.types.get(number as usize) {
        Some(desc) => desc.size,
        None => 0,
    }
}

// Whether a type is of so many bytes, of which none refer.
fn is_plain(desc: &TypeDesc, size: u32) -> bool
    ensures plain { result ≡ true → desc.now ≡ type_of_size size [] }
    ensures other { result ≡ false → desc.now ≡ type_of_size size [] → ⊥ }
{
    desc.size == size && desc.map.as_slice().is_empty()
}

/// The number of the type of plain elements of so many bytes, which is among those of the tables.
pub(crate) fn plain_of(tables: &Tables, size: u32) -> u32
    requires few { length tables.now.types.items < 2 ^ 32 }
    requires there { HasPlain tables.now size }
    ensures { type_by tables.now result ≡ type_of_size size [] }
{
    let types: &[TypeDesc] = &tables.types;
    for k in 0..types.len() {
        if is_plain(&types[k], size) {
            return k as u32;
        }
    }
    unreachable!()
}
