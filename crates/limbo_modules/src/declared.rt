//! What a module declares for others.

ghost use Rattle.std.specs.Prelude.{◌≡◌, ◌<◌, ◌+◌, Some, length, map, slice_get, IfOk, OnOk};
ghost use Rattle.limbo_scope.specs.declared.meaning.Meaning.TheVariants as meaning;
ghost use Rattle.limbo_typed.specs.View.{view_declared};
ghost use Rattle.limbo_entries.specs.View.{entries_of};
ghost use Rattle.limbo_context.specs.View.{view_callee};
ghost use Rattle.limbo_meanings.specs.Meanings.{AreMeanings};
ghost use Rattle.limbo_modules.specs.Declaring.{DeclaredTo, AreDeclared};

use inf_text::Text;
use limbo_context::Callee;
use limbo_entries::Table;
use limbo_exports::is_called;
use limbo_scope::Meaning;
use limbo_typed::Declared;
use limbo_types::copy_fn;
use std::alloc::{AllocError, Global};

// The function of this number under a name.
fn declare(
    alloc: Global,
    name: &Text,
    function: u32,
    callee: &Callee,
) -> Result<Declared, AllocError>
    ensures { IfOk result (λ d. view_declared d ≡ record { name = name.now; of = (view_callee callee.now).of; function = function }) }
{
    let name = name.clone()?;
    Ok(Declared {
        name,
        of: copy_fn(alloc, &callee.of)?,
        function,
    })
}

// The number of the function that the declaration of a number is.
fn function_at(meanings: &[Option<Meaning>], number: u32) -> Result<u32, AllocError>
    ensures { IfOk result (λ f. slice_get meanings.now number ≡ Some (Some (meaning.Function f))) }
{
    match meanings.get(number as usize) {
        Some(Some(Meaning::Function(function))) => Ok(*function),
        _ => Err(AllocError),
    }
}

// Adds a declaration, if it is a function among the members of the implemented module.
fn push_declared(
    alloc: Global,
    table: &Table,
    implemented: u32,
    meanings: &[Option<Meaning>],
    functions: &[Callee],
    number: u32,
    declared: &mut Vec<Declared>,
) -> Result<(), AllocError>
    requires there { number < length table.now.entries.items }
    requires meanings { AreMeanings (entries_of table.now.entries.items) implemented meanings.now }
    ensures { OnOk result (DeclaredTo (entries_of table.now.entries.items) implemented (map view_callee functions.now) number
        (map view_declared declared.old.items)
        → DeclaredTo (entries_of table.now.entries.items) implemented (map view_callee functions.now) (number + 1)
        (map view_declared declared.new.items)) }
{
    let entry = table.entries[number as usize];
    if !is_called(None, Some(implemented), entry) {
        return Ok(());
    }
    let function = function_at(meanings, number)?;
    match functions.get(function as usize) {
        Some(callee) => {
            let told = declare(alloc, &entry.row.name.text, function, callee)?;
            declared.push(told)?;
            Ok(())
        }
        None => Err(AllocError),
    }
}

/// The functions among the members of the implemented module, in the order of declaration.
///
/// # Errors
/// Want of memory.
pub(crate) fn declared_functions(
    alloc: Global,
    table: &Table,
    implemented: u32,
    meanings: &[Option<Meaning>],
    functions: &[Callee],
) -> Result<Vec<Declared>, AllocError>
    requires meanings { AreMeanings (entries_of table.now.entries.items) implemented meanings.now }
    ensures { IfOk result (λ ds. AreDeclared (entries_of table.now.entries.items) implemented (map view_callee functions.now)
        (map view_declared ds.items)) }
{
    let mut declared = Vec::new(alloc);
    for number in 0..table.entries.len() as u32 {
        push_declared(
            alloc,
            table,
            implemented,
            meanings,
            functions,
            number,
            &mut declared,
        )?;
    }
    Ok(declared)
}
