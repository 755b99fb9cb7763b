//! Names of import tables.

ghost use Rattle.std.specs.Prelude.{◌≡◌, ◌++◌, map, IfOk, OnOk};
ghost use Rattle.dis_meaning.specs.Step as meaning;
ghost use Rattle.dis_loading.specs.Growing.{lists_of};

use dis_file::Import;
use inf_text::{Seq, Text};
use std::alloc::{AllocError, Global};

// The names of an import table.
fn names(alloc: Global, table: &[Import]) -> Result<Vec<Text>, AllocError>
    ensures { IfOk result (λ names. names.items ≡ meaning.names table.now) }
{
    let mut names = Vec::with_capacity(alloc, table.len())?;
    for import in table {
        names.push(import.name.clone()?)?;
    }
    Ok(names)
}

/// Enters the names of import tables, in their order.
pub(crate) fn enter(
    alloc: Global,
    lists: &mut Vec<Vec<Text>>,
    tables: &[Seq<Import>],
) -> Result<(), AllocError>
    ensures { OnOk result (lists_of lists.new ≡ lists_of lists.old ++ map meaning.names tables.now) }
{
    for table in tables {
        lists.push(names(alloc, table.as_slice())?)?;
    }
    Ok(())
}
