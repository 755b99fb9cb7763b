//! Which declarations stand inside each.

ghost use Rattle.std.specs.Prelude.{◌≡◌, ◌<◌, [], length, IfOk, OnOk};
ghost use Rattle.limbo_entries.specs.View.{entries_of};
ghost use Rattle.limbo_order.specs.View.{rows};
ghost use Rattle.limbo_source_adts.specs.Inside.{AreInside, with_number};
ghost use Rattle.limbo_source_adts.specs.Empty.{none_each};

use limbo_entries::Table;
use std::alloc::{AllocError, Global};

// Empty rows, so many.
fn empty_rows(alloc: Global, count: usize) -> Result<Vec<Vec<u32>>, AllocError>
    ensures { IfOk result (λ all. rows all.items ≡ none_each count) }
{
    let mut all = Vec::with_capacity(alloc, count)?;
    for _ in 0..count {
        all.push(Vec::new(alloc))?;
    }
    Ok(all)
}

// Adds a number to the row of a declaration.
fn push_number(all: &mut Vec<Vec<u32>>, outer: u32, number: u32) -> Result<(), AllocError>
    requires there { outer < length all.old.items }
    ensures { OnOk result (rows all.new.items ≡ with_number (rows all.old.items) outer number) }
{
    all[outer as usize].push(number)?;
    Ok(())
}

/// Of each declaration of a table the numbers of those that stand inside it, in order.
///
/// # Errors
/// Want of memory.
pub(crate) fn find_inside(alloc: Global, table: &Table) -> Result<Vec<Vec<u32>>, AllocError>
    ensures { IfOk result (λ all. AreInside (entries_of table.now.entries.items) (rows all.items)) }
{
    let mut all = empty_rows(alloc, table.entries.len())?;
    for (number, entry) in table.entries.iter().enumerate() {
        match entry.within {
            None => {}
            Some(outer) => push_number(&mut all, outer, number as u32)?,
        }
    }
    Ok(all)
}
