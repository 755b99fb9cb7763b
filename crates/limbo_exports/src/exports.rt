//! What the members of modules mean to those who come through the modules.

ghost use Rattle.std.specs.Prelude.{◌≡◌, ◌<◌, ◌≤◌, ◌+◌, ◌^◌, ℕ, List, Some, length, take, slice_get, IfOk};
ghost use Rattle.limbo_declarations.specs.View.{view_declared};
ghost use Rattle.limbo_entries.specs.View.{entries_of, view_entry};
ghost use Rattle.limbo_meanings.specs.Meanings.{AreMeanings};
ghost use Rattle.limbo_meanings.specs.Names as names;
ghost use Rattle.limbo_exports.specs.System as system;
ghost use Rattle.limbo_exports.specs.Exports as exports;
ghost use Rattle.limbo_exports.specs.Exports.{AreExports};

use crate::system::print_of;
use limbo_declarations::Declared;
use limbo_entries::{Entry, Table};
use limbo_scope::Meaning;
use std::alloc::{AllocError, Global};

// Whether it is a function.
fn is_function(declared: Declared) -> bool
    ensures { result ≡ system.is_function (view_declared declared.entry) }
{
    match declared {
        Declared::Function(_of) => true,
        _ => false,
    }
}

// Whether two scopes are one.
fn is_same(scope: Option<u32>, within: Option<u32>) -> bool
    ensures { result ≡ names.same_scope scope within }
{
    match scope {
        None => within.is_none(),
        Some(outer) => match within {
            None => false,
            Some(other) => outer == other,
        },
    }
}

/// Whether a declaration is a function that stands in a scope, and is no print of the built-in module, which has this number.
pub fn is_called(builtin: Option<u32>, scope: Option<u32>, entry: Entry) -> bool
    ensures { result ≡ exports.is_called builtin scope (view_entry entry.entry) }
{
    is_function(entry.row.declared)
        && is_same(scope, entry.within)
        && print_of(builtin, entry).is_none()
}

// How many functions that are no prints stand in a scope, among the first declarations.
fn count_called(table: &Table, builtin: Option<u32>, scope: Option<u32>, end: u32) -> u32
    requires there { end ≤ length table.now.entries.items }
    ensures count { result ≡ exports.many_called builtin scope (take end (entries_of table.now.entries.items)) }
    ensures few { result ≤ end }
{
    let mut count = 0;
    for number in 0..end {
        let entry = table.entries[number as usize];
        if !is_called(builtin, scope, entry) {
            continue;
        }
        count += 1;
    }
    count
}

// The number of the declaration of a number as a function of its module.
fn function_number(
    table: &Table,
    builtin: Option<u32>,
    number: u32,
    entry: Entry,
) -> Result<u32, AllocError>
    requires there { number < length table.now.entries.items }
    ensures { IfOk result (λ n. n
        ≡ exports.function_number (entries_of table.now.entries.items) builtin number (view_entry entry.entry)) }
{
    match print_of(builtin, entry) {
        None => Ok(count_called(table, builtin, entry.within, number)),
        Some(print) => {
            let all = count_called(table, builtin, entry.within, table.entries.len() as u32);
            match all.checked_add(print) {
                Some(sum) => Ok(sum),
                None => Err(AllocError),
            }
        }
    }
}

// What a declaration means to others, if it means this where it is declared.
fn export(
    table: &Table,
    builtin: Option<u32>,
    number: u32,
    entry: Entry,
    meaning: Option<Meaning>,
) -> Result<Option<Meaning>, AllocError>
    requires there { number < length table.now.entries.items }
    ensures { IfOk result (λ x. x
        ≡ exports.export_by (entries_of table.now.entries.items) builtin number (view_entry entry.entry) meaning) }
{
    match entry.row.declared {
        Declared::Function(_of) => match function_number(table, builtin, number, entry) {
            Ok(place) => Ok(Some(Meaning::Function(place))),
            Err(fault) => Err(fault),
        },
        Declared::Variable { .. } => Ok(None),
        Declared::Inferred(_value) => Ok(None),
        _ => Ok(meaning),
    }
}

// What the declaration of a number means where it is declared.
fn meaning_at(meanings: &[Option<Meaning>], number: u32) -> Option<Meaning>
    requires there { number < length meanings.now }
    ensures { slice_get meanings.now number ≡ Some result }
{
    meanings[number as usize]
}

/// What the name of each declaration means to those who come through the module in which it stands, by what it means where it is
/// declared. The built-in module has this number.
///
/// # Errors
/// Want of memory, or of numbers.
pub fn find_exports(
    alloc: Global,
    table: &Table,
    builtin: Option<u32>,
    meanings: &[Option<Meaning>],
) -> Result<Vec<Option<Meaning>>, AllocError>
    requires as_many { length meanings.now ≡ length table.now.entries.items }
    ensures many { IfOk result (λ all. length all.items ≡ length table.now.entries.items) }
    ensures exports { IfOk result (λ all. (m : ℕ) → AreMeanings (entries_of table.now.entries.items) m meanings.now
        → AreExports (entries_of table.now.entries.items) m builtin all.items) }
{
    let mut all = Vec::with_capacity(alloc, table.entries.len())?;
    for number in 0..table.entries.len() as u32 {
        let entry = table.entries[number as usize];
        let meaning = meaning_at(meanings, number);
        let told = export(table, builtin, number, entry, meaning)?;
        all.push(told)?;
    }
    Ok(all)
}
