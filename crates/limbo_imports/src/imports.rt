//! The names that a source imports from modules.

ghost use Rattle.std.specs.Prelude.{◌≡◌, ◌<◌, ◌+◌, ℕ, length, OnOk, IfOk, IfErr, IfSome, IfNone};
ghost use Rattle.limbo_entries.specs.Entries.{AreOnce};
ghost use Rattle.limbo_entries.specs.View.{entries_of};
ghost use Rattle.limbo_naming.specs.Told.{Knows};
ghost use Rattle.limbo_exports.specs.System as exports;
ghost use Rattle.limbo_imports.specs.Imports as imports;
ghost use Rattle.limbo_imports.specs.Imports.{IsImported, HasNoImport, IsMissing, ImportsTo, ImportsAre};
ghost use Rattle.limbo_imports.specs.declared.fault.ImportFault.TheVariants.{NotThere};

use crate::fault::ImportFault;
use inf_text::Text;
use limbo_context::{Imported, Origin};
use limbo_declarations::Declared;
use limbo_naming::{Named, Naming};
use limbo_scope::Meaning;
use std::alloc::Global;

// What the declaration of a number means, by the meanings of all.
fn meaning_at(meanings: &[Option<Meaning>], number: u32) -> Option<Meaning>
    ensures { result ≡ imports.meaning_at meanings.now number }
{
    match meanings.get(number as usize) {
        None => None,
        Some(meaning) => *meaning,
    }
}

// From where something is imported whose source means this.
fn origin_of(meaning: Option<Meaning>) -> Origin
    ensures { result ≡ imports.origin_of meaning }
{
    match meaning {
        Some(Meaning::Global(number)) => Origin::Global(number),
        _ => Origin::Type,
    }
}

// The number of the module type that is meant.
fn module_in(meaning: Option<Meaning>) -> Option<u32>
    ensures { result ≡ exports.module_in meaning }
{
    match meaning {
        Some(Meaning::Module(number)) => Some(number),
        _ => None,
    }
}

// The name that is imported in a scope from what another one names, if it is there.
fn imported(
    naming: &Naming,
    implemented: u32,
    meanings: &[Option<Meaning>],
    others: &[Option<Meaning>],
    scope: Option<u32>,
    source: &Text,
    name: &Text,
) -> Option<Imported>
    requires names { Knows naming.now }
    requires implemented { naming.now.implemented ≡ implemented }
    requires once { AreOnce (entries_of naming.now.table.now.entries.items) }
    ensures some { IfSome result (λ x. IsImported (entries_of naming.now.table.now.entries.items) implemented meanings.now others.now
        scope source.now name.now x) }
    ensures none { IfNone result (HasNoImport (entries_of naming.now.table.now.entries.items) implemented meanings.now others.now
        scope source.now name.now) }
{
    let table = naming.table();
    match table.find(implemented, scope, source) {
        None => None,
        Some(from) => match naming.name_named(scope, source) {
            Named::Found(outer) => match module_in(meaning_at(meanings, outer)) {
                None => None,
                Some(interface) => match table.member(Some(outer), name) {
                    None => None,
                    Some(number) => match meaning_at(others, number) {
                        None => None,
                        Some(member) => Some(Imported {
                            origin: origin_of(meaning_at(meanings, from)),
                            interface,
                            member,
                        }),
                    },
                },
            },
            Named::Unknown => None,
            Named::Nothing => None,
        },
    }
}

// Adds a declaration, if it imports a name.
fn push_import(
    naming: &Naming,
    implemented: u32,
    meanings: &[Option<Meaning>],
    others: &[Option<Meaning>],
    number: u32,
    imports: &mut Vec<Imported>,
) -> Result<(), ImportFault>
    requires names { Knows naming.now }
    requires implemented { naming.now.implemented ≡ implemented }
    requires once { AreOnce (entries_of naming.now.table.now.entries.items) }
    requires there { number < length naming.now.table.now.entries.items }
    ensures imports { OnOk result (ImportsTo (entries_of naming.now.table.now.entries.items) implemented meanings.now others.now number
        imports.old.items
        → ImportsTo (entries_of naming.now.table.now.entries.items) implemented meanings.now others.now (number + 1) imports.new.items) }
    ensures not_there { IfErr result (λ e. (n : ℕ) → e ≡ NotThere n
        → IsMissing (entries_of naming.now.table.now.entries.items) implemented meanings.now others.now n) }
{
    let entry = naming.table().entries[number as usize];
    match entry.row.declared {
        Declared::Imported(source) => {
            let name = &entry.row.name.text;
            match imported(
                naming,
                implemented,
                meanings,
                others,
                entry.within,
                &source.text,
                name,
            ) {
                Some(told) => {
                    imports.push(told)?;
                    Ok(())
                }
                None => Err(ImportFault::NotThere { number }),
            }
        }
        _ => Ok(()),
    }
}

/// The imported names of a table, in order, by what the names of all its declarations mean, and what they mean to those who come
/// through a module.
///
/// # Errors
/// Want of memory. `NotThere` only where a declaration imports what isn't there: its number.
pub fn list_imports(
    alloc: Global,
    naming: &Naming,
    implemented: u32,
    meanings: &[Option<Meaning>],
    others: &[Option<Meaning>],
) -> Result<Vec<Imported>, ImportFault>
    requires names { Knows naming.now }
    requires implemented { naming.now.implemented ≡ implemented }
    requires once { AreOnce (entries_of naming.now.table.now.entries.items) }
    ensures imports { IfOk result (λ all. ImportsAre (entries_of naming.now.table.now.entries.items) implemented meanings.now others.now
        all.items) }
    ensures not_there { IfErr result (λ e. (n : ℕ) → e ≡ NotThere n
        → IsMissing (entries_of naming.now.table.now.entries.items) implemented meanings.now others.now n) }
{
    let mut imports = Vec::new(alloc);
    for number in 0..naming.table().entries.len() as u32 {
        match push_import(naming, implemented, meanings, others, number, &mut imports) {
            Ok(()) => {}
            Err(fault) => return Err(fault),
        }
    }
    Ok(imports)
}
