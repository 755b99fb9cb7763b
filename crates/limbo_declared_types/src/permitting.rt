//! Whether all types that declarations write are permitted.

ghost use Rattle.std.specs.Prelude.{◌≡◌, ◌<◌, ℕ, Some, length, slice_get, IfErr, OnOk};
ghost use Rattle.limbo_types.specs.Types.{Ty};
ghost use Rattle.limbo_layout.specs.Adts.{Def};
ghost use Rattle.limbo_refusals.specs.Refusals.{Refuses};
ghost use Rattle.limbo_entries.specs.Entries as entries;
ghost use Rattle.limbo_entries.specs.Entries.{IsEntry, AreOnce};
ghost use Rattle.limbo_entries.specs.View.{entries_of};
ghost use Rattle.limbo_naming.specs.Told.{IsNaming};
ghost use Rattle.limbo_naming.specs.declared.naming.Naming as naming;
ghost use Rattle.limbo_type_names.specs.Means.{Stands};
ghost use Rattle.limbo_type_names.specs.Told.{AreTypesOf};
ghost use Rattle.limbo_source_adts.specs.Definitions.{AreHeaded};
ghost use Rattle.limbo_context.specs.View.{view_context};
ghost use Rattle.limbo_permits.specs.Permits.{Permits};
ghost use Rattle.limbo_members.specs.Standing.{IsAllowedIn};
ghost use Rattle.limbo_declared_types.specs.Permitted.{IsPermittedAt, AllPermitted, PermittedTo, IsForbiddenAt};
ghost use Rattle.limbo_declared_types.specs.Asked.{ForbidsName, AllowsAdt, ForbidsAdtAt};

use crate::asking::permit_heading;
use crate::fault::Forbidden;
use limbo_context::Context;
use limbo_declarations::Declared;
use limbo_entries::Table;
use limbo_headers::Heading;
use limbo_members::allow_def;
use limbo_permits::permit_type;
use limbo_refusals::ExprFault;
use limbo_type_names::TypeNames;
use std::alloc::Global;

// Whether values may have the type that a name by `type` stands for. Each such stands for a type.
fn permit_name(
    alloc: Global,
    table: &Table,
    names: &TypeNames,
    implemented: u32,
    context: &Context,
    number: u32,
) -> Result<(), ExprFault>
    requires types { (n : naming.Naming) × IsNaming table.now implemented n × AreTypesOf n names.now }
    requires once { AreOnce (entries_of table.now.entries.items) }
    requires there { number < length table.now.entries.items }
    ensures permitted { OnOk result ((u : Ty) → Stands (entries_of table.now.entries.items) implemented number u
        → Permits (view_context context.now) u) }
    ensures refused { IfErr result (λ f. Refuses f (ForbidsName (entries_of table.now.entries.items) implemented
        (view_context context.now) number)) }
{
    match names.declared(number) {
        Some(of) => permit_type(alloc, context, of),
        None => Err(ExprFault::NoMemory),
    }
}

// Whether an adt's parts together are allowed. The context of a table has each of its adts.
fn permit_adt(
    alloc: Global,
    table: &Table,
    names: &TypeNames,
    implemented: u32,
    context: &Context,
    number: u32,
) -> Result<(), ExprFault>
    requires types { (n : naming.Naming) × IsNaming table.now implemented n × AreTypesOf n names.now }
    requires there { number < length table.now.entries.items }
    ensures allowed { OnOk result (AllowsAdt (entries_of table.now.entries.items) (view_context context.now) number) }
    ensures refused { IfErr result (λ f. Refuses f (ForbidsAdtAt (entries_of table.now.entries.items) (view_context context.now) number)) }
{
    match context.adts.defs().get(names.number(number) as usize) {
        Some(def) => allow_def(alloc, context, def),
        None => Err(ExprFault::NoMemory),
    }
}

// Whether what the declaration of a number writes is permitted.
fn permit_entry(
    alloc: Global,
    table: &Table,
    names: &TypeNames,
    implemented: u32,
    context: &Context,
    headings: &[Heading],
    number: u32,
) -> Result<(), ExprFault>
    requires types { (n : naming.Naming) × IsNaming table.now implemented n × AreTypesOf n names.now }
    requires once { AreOnce (entries_of table.now.entries.items) }
    requires many { length headings.now ≡ length table.now.entries.items }
    requires headed { AreHeaded (entries_of table.now.entries.items) implemented headings.now }
    requires there { number < length table.now.entries.items }
    ensures permitted { OnOk result ((e : entries.Entry) → IsEntry (entries_of table.now.entries.items) number e
        → IsPermittedAt (entries_of table.now.entries.items) implemented (view_context context.now) number e) }
    ensures refused { IfErr result (λ f. Refuses f (IsForbiddenAt (entries_of table.now.entries.items) implemented
        (view_context context.now) number)) }
{
    let entry = table.entries[number as usize];
    match entry.row.declared {
        Declared::Alias(_of) => permit_name(alloc, table, names, implemented, context, number),
        Declared::Adt { .. } => permit_adt(alloc, table, names, implemented, context, number),
        _ => permit_heading(alloc, context, &headings[number as usize]),
    }
}

/// Whether all types are permitted that the declarations of a table write: they are asked declaration by declaration, in the order of the
/// table. These types are told of the declarations, and the context is that of the table.
///
/// # Errors
/// Want of memory. Of the first declaration that writes a type which values may not have: 51 where it holds an `FD` as a value, 53 where a
/// user's module type stands inside it, or a function answers a value of one, 55 where it takes more than 65,536 bytes, or has more than
/// 4,096 nodes. The values of an exception count as one tuple, and so do the parts of an adt, of which the nodes aren't counted together.
pub fn permit_all(
    alloc: Global,
    table: &Table,
    names: &TypeNames,
    implemented: u32,
    context: &Context,
    headings: &[Heading],
) -> Result<(), Forbidden>
    requires types { (n : naming.Naming) × IsNaming table.now implemented n × AreTypesOf n names.now }
    requires once { AreOnce (entries_of table.now.entries.items) }
    requires many { length headings.now ≡ length table.now.entries.items }
    requires headed { AreHeaded (entries_of table.now.entries.items) implemented headings.now }
    ensures permitted { OnOk result (AllPermitted (entries_of table.now.entries.items) implemented (view_context context.now)) }
    ensures refused { IfErr result (λ f. Refuses f.fault (IsForbiddenAt (entries_of table.now.entries.items) implemented
        (view_context context.now) f.number)) }
    ensures first { IfErr result (λ f. PermittedTo (entries_of table.now.entries.items) implemented (view_context context.now) f.number) }
{
    for number in 0..table.entries.len() as u32 {
        match permit_entry(alloc, table, names, implemented, context, headings, number) {
            Ok(()) => {}
            Err(fault) => return Err(Forbidden { number, fault }),
        }
    }
    Ok(())
}
