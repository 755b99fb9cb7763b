//! The exceptions that a source declares.

ghost use Rattle.std.specs.Prelude.{◌≡◌, ◌<◌, ◌+◌, ℕ, length, map, IfOk, OnOk};
ghost use Rattle.limbo_types.specs.View.{view_ty};
ghost use Rattle.limbo_typed.specs.View.{view_exception};
ghost use Rattle.limbo_entries.specs.View.{entries_of};
ghost use Rattle.limbo_source_adts.specs.Definitions.{AreHeaded};
ghost use Rattle.limbo_outline.specs.Outline.{ExceptionsTo, ExceptionsAre};

use inf_text::Text;
use limbo_entries::Table;
use limbo_headers::Heading;
use limbo_typed::TException;
use limbo_types::{Ty, copy_all};
use std::alloc::{AllocError, Global};

// What is told of an exception.
fn exception(
    alloc: Global,
    module_name: &Text,
    name: &Text,
    values: &[Ty],
) -> Result<TException, AllocError>
    ensures of_module { IfOk result (λ x. x.module ≡ module_name.now) }
    ensures name { IfOk result (λ x. x.name ≡ name.now) }
    ensures values { IfOk result (λ x. map view_ty x.values.items ≡ map view_ty values.now) }
{
    Ok(TException {
        module: module_name.clone()?,
        name: name.clone()?,
        values: copy_all(alloc, values)?,
    })
}

// Adds a declaration, if it is an exception.
fn push_exception(
    alloc: Global,
    table: &Table,
    module_name: &Text,
    headings: &[Heading],
    number: u32,
    exceptions: &mut Vec<TException>,
) -> Result<(), AllocError>
    requires there { number < length table.now.entries.items }
    requires many { length headings.now ≡ length table.now.entries.items }
    ensures { OnOk result ((m : ℕ) → AreHeaded (entries_of table.now.entries.items) m headings.now
        → ExceptionsTo (entries_of table.now.entries.items) m module_name.now number (map view_exception exceptions.old.items)
        → ExceptionsTo (entries_of table.now.entries.items) m module_name.now (number + 1) (map view_exception exceptions.new.items)) }
{
    match &headings[number as usize] {
        Heading::Exception(values) => {
            let entry = table.entries[number as usize];
            let exception = exception(alloc, module_name, &entry.row.name.text, values)?;
            exceptions.push(exception)?;
            Ok(())
        }
        _ => Ok(()),
    }
}

/// The exceptions that a table declares, in order, if the implemented module has this name.
///
/// # Errors
/// Want of memory.
pub fn list_exceptions(
    alloc: Global,
    table: &Table,
    module_name: &Text,
    headings: &[Heading],
) -> Result<Vec<TException>, AllocError>
    requires many { length headings.now ≡ length table.now.entries.items }
    ensures { IfOk result (λ all. (m : ℕ) → AreHeaded (entries_of table.now.entries.items) m headings.now
        → ExceptionsAre (entries_of table.now.entries.items) m module_name.now (map view_exception all.items)) }
{
    let mut exceptions = Vec::new(alloc);
    for number in 0..table.entries.len() as u32 {
        push_exception(alloc, table, module_name, headings, number, &mut exceptions)?;
    }
    Ok(exceptions)
}
