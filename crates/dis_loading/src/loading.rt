//! All objects of a program.

ghost use Rattle.std.specs.Prelude.{◌≡◌, ◌<◌, ◌^◌, ℕ, List, map, Some, slice_get, IfOk, OnOk};
ghost use Rattle.dis_code.specs.declared.code.Code.{Code as AnyCode};
ghost use Rattle.dis_code.specs.Loaded.{IsLoaded};
ghost use Rattle.dis_loading.specs.Growing.{Grows, IsBegun, IsEntered};

use crate::{names, types};
use dis_code::Code;
use dis_file::Object;
use dis_places::Tables;
use inf_text::Text;
use std::alloc::{AllocError, Global};

/// The tables of memory, and the objects that they stand for, by their base names.
#[derive(Drop)]
pub struct Loaded {
    pub tables: Tables,
    pub codes: Vec<(Text, Code)>,
}

// Tables before any object is entered.
fn begin(alloc: Global) -> Result<Tables, AllocError>
    ensures { IfOk result IsBegun }
{
    Ok(Tables {
        types: types::first(alloc)?,
        names: Vec::new(alloc),
    })
}

// How many there are, as a number in the tables. No memory has more.
fn number(long: usize) -> Result<u32, AllocError>
    ensures number { IfOk result (λ n. n ≡ long) }
    ensures few { OnOk result (long < 2 ^ 32) }
{
    match u32::try_from(long) {
        Ok(n) => Ok(n),
        Err(_) => Err(AllocError),
    }
}

// Enters an object's types and names.
fn enter(alloc: Global, tables: &mut Tables, object: Object) -> Result<Code, AllocError>
    requires { IsBegun tables.old }
    ensures begun { OnOk result (IsBegun tables.new) }
    ensures grows { OnOk result (Grows tables.old tables.new) }
    ensures entered { IfOk result (IsEntered tables.new) }
    ensures object { IfOk result (λ code. code.object ≡ object) }
{
    let from = number(tables.types.len())?;
    let named = number(tables.names.len())?;
    types::enter(alloc, &mut tables.types, object.types.as_slice())?;
    types::enter_plains(alloc, &mut tables.types, object.insts.as_slice())?;
    names::enter(alloc, &mut tables.names, object.imports.as_slice())?;
    number(tables.types.len())?;
    number(tables.names.len())?;
    Ok(Code {
        object,
        types: from,
        names: named,
    })
}

/// Tables with what these objects ask for, and the objects with their numbers there.
///
/// # Errors
/// Want of memory.
pub fn load(alloc: Global, objects: Vec<(Text, Object)>) -> Result<Loaded, AllocError>
    ensures same { IfOk result (λ l. map (λ c. (c.0, c.1.object)) l.codes.items ≡ objects.items) }
    ensures loaded { IfOk result (λ l. (k : ℕ) (code : List ℕ × AnyCode) →
        slice_get l.codes.items k ≡ Some code → IsLoaded l.tables code.1) }
{
    let mut tables = begin(alloc)?;
    let mut codes = Vec::with_capacity(alloc, objects.len())?;
    for (name, object) in objects {
        let code = enter(alloc, &mut tables, object)?;
        codes.push((name, code))?;
    }
    Ok(Loaded { tables, codes })
}
