//! What the names stand for that a source declares by `type`.

ghost use Rattle.std.specs.Prelude.{◌≡◌, ◌<◌, ◌+◌, length, map, IfOk, OnOk};
ghost use Rattle.limbo_types.specs.View.{view_ty};
ghost use Rattle.limbo_type_names.specs.Working.{entries_in};
ghost use Rattle.limbo_type_names.specs.Told.{KnowsTypes};
ghost use Rattle.limbo_outline.specs.Outline.{TypesTo, TypesAre};

use limbo_declarations::Declared;
use limbo_entries::Table;
use limbo_type_names::TypeNames;
use limbo_types::{Ty, copy};
use std::alloc::{AllocError, Global};

// Adds what a declaration stands for, if it is a name by `type`. Each such stands for a type.
fn push_type(
    alloc: Global,
    table: &Table,
    names: &TypeNames,
    number: u32,
    types: &mut Vec<Ty>,
) -> Result<(), AllocError>
    requires types { KnowsTypes names.now }
    requires table { names.now.naming.now.table.now ≡ table.now }
    requires there { number < length table.now.entries.items }
    ensures { OnOk result (TypesTo (entries_in names.now.naming.now) names.now.naming.now.implemented number (map view_ty types.old.items)
        → TypesTo (entries_in names.now.naming.now) names.now.naming.now.implemented (number + 1) (map view_ty types.new.items)) }
{
    let entry = table.entries[number as usize];
    match entry.row.declared {
        Declared::Alias(_of) => match names.declared(number) {
            Some(ty) => {
                let copied = copy(alloc, ty)?;
                types.push(copied)?;
                Ok(())
            }
            None => Err(AllocError),
        },
        _ => Ok(()),
    }
}

/// What the names by `type` of a table stand for, in order.
///
/// # Errors
/// Want of memory.
pub fn list_types(alloc: Global, table: &Table, names: &TypeNames) -> Result<Vec<Ty>, AllocError>
    requires types { KnowsTypes names.now }
    requires table { names.now.naming.now.table.now ≡ table.now }
    ensures { IfOk result (λ all. TypesAre (entries_in names.now.naming.now) names.now.naming.now.implemented (map view_ty all.items)) }
{
    let mut types = Vec::new(alloc);
    for number in 0..table.entries.len() as u32 {
        push_type(alloc, table, names, number, &mut types)?;
    }
    Ok(types)
}
