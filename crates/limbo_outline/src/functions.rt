//! The functions of the module.

ghost use Rattle.std.specs.Prelude.{◌≡◌, ◌<◌, ◌+◌, length, map, IfOk, OnOk};
ghost use Rattle.limbo_types.specs.View.{view_fn};
ghost use Rattle.limbo_entries.specs.View.{entries_of};
ghost use Rattle.limbo_context.specs.View.{view_callee};
ghost use Rattle.limbo_source_adts.specs.Definitions.{AreHeaded};
ghost use Rattle.limbo_meanings.specs.Meanings.{AreMeanings};
ghost use Rattle.limbo_outline.specs.Outline.{owner_of, FunctionsTo, FunctionsAre};

use limbo_context::Callee;
use limbo_entries::Table;
use limbo_headers::{Header, Heading};
use limbo_meanings::{Kind, is_of_kind};
use limbo_scope::Meaning;
use limbo_types::copy_fn;
use std::alloc::{AllocError, Global};

// The adt in which a function stands, by what the names of the declarations mean.
fn owner(
    table: &Table,
    implemented: u32,
    meanings: &[Option<Meaning>],
    scope: Option<u32>,
) -> Option<u32>
    requires many { length meanings.now ≡ length table.now.entries.items }
    requires meanings { AreMeanings (entries_of table.now.entries.items) implemented meanings.now }
    ensures { result ≡ owner_of (entries_of table.now.entries.items) implemented scope }
{
    match scope {
        None => None,
        Some(outer) => match meanings.get(outer as usize) {
            Some(Some(Meaning::Adt(number))) => Some(*number),
            _ => None,
        },
    }
}

// What is told of a function of the module.
fn callee(alloc: Global, header: &Header, owner: Option<u32>) -> Result<Callee, AllocError>
    ensures header { IfOk result (λ f. (view_callee f).of ≡ view_fn header.now.of) }
    ensures owner { IfOk result (λ f. f.owner ≡ owner) }
    ensures takes_self { IfOk result (λ f. f.takes_self ≡ header.now.takes_self) }
{
    Ok(Callee {
        of: copy_fn(alloc, &header.of)?,
        owner,
        takes_self: header.takes_self,
    })
}

// Adds a declaration, if it is a function of the module.
fn push_function(
    alloc: Global,
    table: &Table,
    implemented: u32,
    meanings: &[Option<Meaning>],
    headings: &[Heading],
    number: u32,
    functions: &mut Vec<Callee>,
) -> Result<(), AllocError>
    requires there { number < length table.now.entries.items }
    requires many { length headings.now ≡ length table.now.entries.items }
    requires headed { AreHeaded (entries_of table.now.entries.items) implemented headings.now }
    requires as_many { length meanings.now ≡ length table.now.entries.items }
    requires meanings { AreMeanings (entries_of table.now.entries.items) implemented meanings.now }
    ensures { OnOk result (FunctionsTo (entries_of table.now.entries.items) implemented number (map view_callee functions.old.items)
        → FunctionsTo (entries_of table.now.entries.items) implemented (number + 1) (map view_callee functions.new.items)) }
{
    let entry = table.entries[number as usize];
    if !is_of_kind(table, implemented, Kind::Function, entry) {
        return Ok(());
    }
    match &headings[number as usize] {
        Heading::Function(header) => {
            let of_adt = owner(table, implemented, meanings, entry.within);
            let told = callee(alloc, header, of_adt)?;
            functions.push(told)?;
            Ok(())
        }
        _ => Err(AllocError),
    }
}

/// The functions of the module, in order, by what is told of the declarations of its table.
///
/// # Errors
/// Want of memory.
pub fn list_functions(
    alloc: Global,
    table: &Table,
    implemented: u32,
    meanings: &[Option<Meaning>],
    headings: &[Heading],
) -> Result<Vec<Callee>, AllocError>
    requires many { length headings.now ≡ length table.now.entries.items }
    requires headed { AreHeaded (entries_of table.now.entries.items) implemented headings.now }
    requires as_many { length meanings.now ≡ length table.now.entries.items }
    requires meanings { AreMeanings (entries_of table.now.entries.items) implemented meanings.now }
    ensures { IfOk result (λ all. FunctionsAre (entries_of table.now.entries.items) implemented (map view_callee all.items)) }
{
    let mut functions = Vec::new(alloc);
    for number in 0..table.entries.len() as u32 {
        push_function(
            alloc,
            table,
            implemented,
            meanings,
            headings,
            number,
            &mut functions,
        )?;
    }
    Ok(functions)
}
