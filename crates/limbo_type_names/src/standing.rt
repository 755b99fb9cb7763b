//! What declarations stand for, one found after the other.

ghost use Rattle.std.specs.Prelude.{◌≡◌, ◌<◌, ℕ, Some, length, slice_get, IfOk, IfErr, OnOk};
ghost use Rattle.limbo_entries.specs.Entries.{IsEntry};
ghost use Rattle.limbo_entries.specs.View.{view_entry};
ghost use Rattle.limbo_declarations.specs.Rows as told;
ghost use Rattle.limbo_naming.specs.Told.{Knows};
ghost use Rattle.limbo_type_names.specs.Numbers.{AreNumbers};
ghost use Rattle.limbo_type_names.specs.Needs.{NeedsType};
ghost use Rattle.limbo_type_names.specs.Refusals.{IsByType, FailsAt};
ghost use Rattle.limbo_type_names.specs.Working.{entries_in, Settles, IsDone, IsKnown, Sees, AreBehind, Sets};

use crate::counted::{Counted, copy_of, leaf};
use crate::fault::{TypeFault, TypesFault};
use crate::known::Known;
use crate::meaning::type_in;
use limbo_declarations::Declared;
use limbo_entries::Entry;
use limbo_naming::{Named, Naming};
use limbo_tree::{Name, TypeTree};
use limbo_types::Ty;
use std::alloc::{AllocError, Global};

// What an imported name stands for.
fn imported(
    alloc: Global,
    known: Known,
    number: u32,
    entry: Entry,
    source: &Name,
) -> Result<Option<Counted>, AllocError>
    requires sees { Sees known }
    requires there { IsEntry (entries_in known.naming.now) number (view_entry entry) }
    requires is { (view_entry entry).row.means ≡ told.Imported source.now.text }
    requires ready { (j : ℕ) → NeedsType (entries_in known.naming.now) known.naming.now.implemented number j
        → IsKnown known j }
    ensures { IfOk result (λ found. Settles (entries_in known.entry.naming.now) known.entry.naming.now.implemented number found) }
{
    let naming = known.naming;
    match naming.import_declared(entry.within, &source.text, &entry.row.name.text) {
        Named::Found(other) => match known.type_at(other) {
            Some(counted) => Ok(Some(copy_of(alloc, counted)?)),
            None => Ok(None),
        },
        Named::Unknown => Ok(None),
        Named::Nothing => Ok(None),
    }
}

// What a name by `type` stands for.
fn by_type(
    alloc: Global,
    known: Known,
    number: u32,
    scope: Option<u32>,
    of: &TypeTree,
) -> Result<Option<Counted>, TypesFault>
    requires sees { Sees known }
    requires is { IsByType known.naming.now.table.now.entries.items number scope of.now }
    requires ready { (j : ℕ) → NeedsType (entries_in known.naming.now) known.naming.now.implemented number j
        → IsKnown known j }
    ensures settles { IfOk result (λ found. Settles (entries_in known.entry.naming.now) known.entry.naming.now.implemented number found) }
    ensures fails { IfErr result (λ e. FailsAt known.entry.naming.now.table.now.entries.items known.entry.naming.now.implemented e) }
{
    match type_in(alloc, known, scope, of) {
        Ok(counted) => Ok(Some(counted)),
        Err(TypeFault::NoMemory) => Err(TypesFault::NoMemory),
        Err(TypeFault::Unknown { at }) => Err(TypesFault::Unknown { number, at }),
        Err(TypeFault::NotAType { at }) => Err(TypesFault::NotAType { number, at }),
    }
}

// What a declaration stands for, where that is known which it needs.
fn stand(alloc: Global, known: Known, number: u32) -> Result<Option<Counted>, TypesFault>
    requires sees { Sees known }
    requires there { number < length known.naming.now.table.now.entries.items }
    requires ready { (j : ℕ) → NeedsType (entries_in known.naming.now) known.naming.now.implemented number j
        → IsKnown known j }
    ensures settles { IfOk result (λ found. Settles (entries_in known.entry.naming.now) known.entry.naming.now.implemented number found) }
    ensures fails { IfErr result (λ e. FailsAt known.entry.naming.now.table.now.entries.items known.entry.naming.now.implemented e) }
{
    let table = known.naming.table();
    let entry = table.entries[number as usize];
    match entry.row.declared {
        Declared::Adt { .. } => Ok(Some(leaf(Ty::Adt(known.numbers[number as usize])))),
        Declared::Module(_members) => Ok(Some(leaf(Ty::Module(known.numbers[number as usize])))),
        Declared::Alias(of) => by_type(alloc, known, number, entry.within, of),
        Declared::Imported(source) => Ok(imported(alloc, known, number, entry, source)?),
        _ => Ok(None),
    }
}

// Finds what a declaration stands for.
fn set_type(
    alloc: Global,
    naming: &Naming,
    numbers: &[u32],
    number: u32,
    types: &mut Vec<Option<Counted>>,
) -> Result<(), TypesFault>
    requires names { Knows naming.now }
    requires numbers { AreNumbers (entries_in naming.now) numbers.now }
    requires there { number < length naming.now.table.now.entries.items }
    requires many { length types.old.items ≡ length naming.now.table.now.entries.items }
    requires ready { (j : ℕ) → NeedsType (entries_in naming.now) naming.now.implemented number j
        → IsDone (entries_in naming.now) naming.now.implemented types.old.items j }
    ensures sets { OnOk result (Sets naming.now number types.old.items types.new.items) }
    ensures fails { IfErr result (λ e. FailsAt naming.now.table.now.entries.items naming.now.implemented e) }
{
    let known = Known {
        naming,
        numbers,
        types,
    };
    match stand(alloc, known, number) {
        Ok(found) => {
            types[number as usize] = found;
            Ok(())
        }
        Err(fault) => Err(fault),
    }
}

/// Finds what these declarations stand for, one after the other.
///
/// # Errors
/// Want of memory. Any other exactly where one that is a name by `type` fails so.
pub(crate) fn fill(
    alloc: Global,
    naming: &Naming,
    numbers: &[u32],
    order: &[u32],
    types: &mut Vec<Option<Counted>>,
) -> Result<(), TypesFault>
    requires names { Knows naming.now }
    requires numbers { AreNumbers (entries_in naming.now) numbers.now }
    requires many { length types.old.items ≡ length naming.now.table.now.entries.items }
    requires there { (i n : ℕ) → slice_get order.now i ≡ Some n → n < length naming.now.table.now.entries.items }
    requires behind { AreBehind naming.now order.now }
    ensures many { OnOk result (length types.new.items ≡ length naming.now.table.now.entries.items) }
    ensures done { OnOk result ((i n : ℕ) → slice_get order.now i ≡ Some n
        → IsDone (entries_in naming.now) naming.now.implemented types.new.items n) }
    ensures fails { IfErr result (λ e. FailsAt naming.now.table.now.entries.items naming.now.implemented e) }
{
    for number in order {
        match set_type(alloc, naming, numbers, *number, types) {
            Ok(()) => {}
            Err(fault) => return Err(fault),
        }
    }
    Ok(())
}

/// Types of which none is known.
///
/// # Errors
/// Want of memory.
pub(crate) fn none_known(alloc: Global, count: usize) -> Result<Vec<Option<Counted>>, AllocError>
    ensures { IfOk result (λ types. length types.items ≡ count) }
{
    let mut types = Vec::with_capacity(alloc, count)?;
    for _ in 0..count {
        types.push(None)?;
    }
    Ok(types)
}
