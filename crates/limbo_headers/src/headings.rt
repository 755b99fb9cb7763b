//! The types of all declarations.

ghost use Rattle.std.specs.Prelude.{◌≡◌, ℕ, Some, length, map, slice_get, IfOk, IfErr};
ghost use Rattle.std.specs.List.{Contains};
ghost use Rattle.limbo_tree.specs.View.{view_type, tys_of};
ghost use Rattle.limbo_types.specs.View.{view_tys};
ghost use Rattle.limbo_entries.specs.Entries as entries;
ghost use Rattle.limbo_entries.specs.Entries.{IsEntry};
ghost use Rattle.limbo_entries.specs.View.{view_entry};
ghost use Rattle.limbo_type_names.specs.Means.{AllMean};
ghost use Rattle.limbo_type_names.specs.Working.{entries_in};
ghost use Rattle.limbo_type_names.specs.Told.{KnowsTypes};
ghost use Rattle.limbo_headers.specs.Headers.{Heads};
ghost use Rattle.limbo_headers.specs.Refusals.{Writes, OneFails, FailsHeading};
ghost use Rattle.limbo_headers.specs.Refusals as refusals;
ghost use Rattle.limbo_headers.specs.declared.header.Heading as heading;

use crate::functions::function_header;
use crate::header::Heading;
use limbo_declarations::Declared;
use limbo_entries::Entry;
use limbo_tree::TypeTree;
use limbo_type_names::{TypeFault, TypeNames, TypesFault};
use limbo_types::Ty;
use std::alloc::Global;

// The types that several written types mean.
fn types_in(
    alloc: Global,
    names: &TypeNames,
    scope: Option<u32>,
    written: &[TypeTree],
) -> Result<Vec<Ty>, TypeFault>
    requires types { KnowsTypes names.now }
    ensures means { IfOk result (λ types. AllMean (entries_in names.now.naming.now) names.now.naming.now.implemented scope
        (tys_of (map view_type written.now)) (view_tys types.items)) }
    ensures fails { IfErr result (λ e. OneFails (entries_in names.now.naming.now) names.now.naming.now.implemented scope
        (Contains written.now) e) }
{
    let mut types = Vec::new(alloc);
    for of in written {
        match names.type_of(alloc, scope, of) {
            Ok(ty) => types.push(ty)?,
            Err(fault) => return Err(fault),
        }
    }
    Ok(types)
}

// The type of what is declared.
fn heading_of(alloc: Global, names: &TypeNames, entry: Entry) -> Result<Heading, TypeFault>
    requires types { KnowsTypes names.now }
    ensures heads { IfOk result (λ h. Heads (entries_in names.now.naming.now) names.now.naming.now.implemented
        (view_entry entry.entry) h) }
    ensures fails { IfErr result (λ e. OneFails (entries_in names.now.naming.now) names.now.naming.now.implemented entry.entry.within
        (Writes entry.entry.row.declared) e) }
{
    match entry.row.declared {
        Declared::Variable { of, .. } => match names.type_of(alloc, entry.within, of) {
            Ok(ty) => Ok(Heading::Variable(Box::new(alloc, ty)?)),
            Err(fault) => Err(fault),
        },
        Declared::Function(of) => match function_header(alloc, names, entry.within, of) {
            Ok(header) => Ok(Heading::Function(Box::new(alloc, header)?)),
            Err(fault) => Err(fault),
        },
        Declared::Exception(values) => match types_in(alloc, names, entry.within, values) {
            Ok(types) => Ok(Heading::Exception(types)),
            Err(fault) => Err(fault),
        },
        _ => Ok(Heading::Other),
    }
}

// A refusal of what the declaration of a number writes.
fn at_number(number: u32, fault: TypeFault) -> TypesFault
    ensures { result ≡ refusals.at_number number fault }
{
    match fault {
        TypeFault::NoMemory => TypesFault::NoMemory,
        TypeFault::Unknown { at } => TypesFault::Unknown { number, at },
        TypeFault::NotAType { at } => TypesFault::NotAType { number, at },
    }
}

/// The types of all declarations, each at its number.
///
/// # Errors
/// Want of memory, also where a type has more than 4,096 nodes. `Unknown` and `NotAType` exactly where a type that a variable, a field, a
/// function or an exception is declared with fails so: the first such.
pub fn head_all(alloc: Global, names: &TypeNames) -> Result<Vec<Heading>, TypesFault>
    requires types { KnowsTypes names.now }
    ensures many { IfOk result (λ all. length all.items ≡ length names.now.naming.now.table.now.entries.items) }
    ensures heads { IfOk result (λ all. (k : ℕ) (e : entries.Entry) (h : heading.Heading) → IsEntry (entries_in names.now.naming.now) k e
        → slice_get all.items k ≡ Some h → Heads (entries_in names.now.naming.now) names.now.naming.now.implemented e h) }
    ensures fails { IfErr result (λ e. FailsHeading names.now.naming.now.table.now.entries.items names.now.naming.now.implemented e) }
{
    let table = names.table();
    let mut all = Vec::with_capacity(alloc, table.entries.len())?;
    for number in 0..table.entries.len() as u32 {
        match heading_of(alloc, names, table.entries[number as usize]) {
            Ok(heading) => all.push(heading)?,
            Err(fault) => return Err(at_number(number, fault)),
        }
    }
    Ok(all)
}
