//! The entries of a table, scope by scope.

ghost use Rattle.std.specs.Prelude.{◌≡◌, ◌+◌, ◌<◌, ◌≤◌, ◌^◌, ◌++◌, [], ◌∷◌, ℕ, List, Some, length, map, IfOk, IfErr};
ghost use Rattle.limbo_declarations.specs.View.{rows_of, view_row};
ghost use Rattle.limbo_declarations.specs.Rows as told;
ghost use Rattle.limbo_declarations.specs.declared.row.Row as code_row;
ghost use Rattle.limbo_declarations.specs.declared.names.RowsFault.TheVariants as rows_fault;
ghost use Rattle.limbo_entries.specs.Entries.{IsTwiceIn, IsAgain, inside};
ghost use Rattle.limbo_entries.specs.Growing.{IsGrown};
ghost use Rattle.limbo_entries.specs.View.{placed};
ghost use Rattle.limbo_entries.specs.declared.scope.Scope as code_scope;

use crate::entry::Entry;
use crate::scope::Scope;
use limbo_declarations::{Declared, Names, Row, RowsFault, adt_rows, field_rows, module_rows};
use std::alloc::{AllocError, Global};

// What a declaration declares inside.
fn rows_inside<'a>(alloc: Global, row: Row<'a>) -> Result<Vec<Row<'a>>, AllocError>
    ensures { IfOk result (λ rows. rows_of rows.items ≡ inside (view_row row.entry)) }
{
    match row.declared {
        Declared::Module(members) => module_rows(alloc, row.path, members),
        Declared::Adt { members, pick } => adt_rows(alloc, row.path, members, pick),
        Declared::Case(fields) => field_rows(alloc, row.path, fields),
        _ => Ok(Vec::new(alloc)),
    }
}

// Adds the declarations of a scope.
fn push_entries<'a>(
    entries: &mut Vec<Entry<'a>>,
    within: Option<u32>,
    rows: &[Row<'a>],
) -> Result<(), AllocError>
    ensures { IfOk result (λ _. entries.new.items ≡ entries.old.items ++ map (placed within) rows.now) }
{
    for row in rows {
        entries.push(Entry { within, row: *row })?;
    }
    Ok(())
}

// Adds a scope.
fn push_scope<'a>(scopes: &mut Vec<Scope<'a>>, scope: Scope<'a>) -> Result<(), AllocError>
    ensures { IfOk result (λ _. scopes.new.items ≡ scopes.old.items ++ scope.entry ∷ []) }
{
    scopes.push(scope)?;
    Ok(())
}

/// Adds the declarations of a scope, and says which they are.
///
/// # Errors
/// Want of memory. `Twice` only where two of the rows declare one name: the second of them.
pub fn push_rows<'a>(
    alloc: Global,
    entries: &mut Vec<Entry<'a>>,
    within: Option<u32>,
    rows: Vec<Row<'a>>,
) -> Result<Scope<'a>, RowsFault<'a>>
    ensures entries { IfOk result (λ _. entries.new.items ≡ entries.old.items ++ map (placed within) rows.entry.items) }
    ensures first { IfOk result (λ s. s.first ≡ length entries.old.items) }
    ensures rows { IfOk result (λ s. s.names.rows ≡ rows.entry) }
    ensures again { IfErr result (λ e. (r : code_row.Row) → e ≡ rows_fault.Twice r
        → (twice : IsTwiceIn (rows_of rows.entry.items)) × (twice.other ≡ view_row r)) }
{
    let first = entries.len();
    match Names::new(alloc, rows) {
        Err(fault) => Err(fault),
        Ok(names) => {
            push_entries(entries, within, &names.rows)?;
            Ok(Scope { first, names })
        }
    }
}

// Adds what stands inside the declaration of a number.
fn push_inside<'a>(
    alloc: Global,
    entries: &mut Vec<Entry<'a>>,
    scopes: &mut Vec<Scope<'a>>,
    number: u32,
) -> Result<(), RowsFault<'a>>
    requires { number < length entries.old.items }
    ensures grown { IfOk result (λ _. (top : List told.Row) (outermost : code_scope.Scope)
        → IsGrown top entries.old.items outermost scopes.old.items number
        → IsGrown top entries.new.items outermost scopes.new.items (number + 1)) }
    ensures more { IfOk result (λ _. length entries.old.items ≤ length entries.new.items) }
    ensures again { IfErr result (λ e. (r : code_row.Row) → e ≡ rows_fault.Twice r → (top : List told.Row) (outermost : code_scope.Scope)
        → IsGrown top entries.old.items outermost scopes.old.items number → IsAgain top (view_row r)) }
{
    let rows = rows_inside(alloc, entries[number as usize].row)?;
    match push_rows(alloc, entries, Some(number), rows) {
        Err(fault) => Err(fault),
        Ok(scope) => {
            push_scope(scopes, scope)?;
            Ok(())
        }
    }
}

/// Adds what stands inside the declarations of the top level, and inside what is added, and so on; the scopes are those of all.
///
/// # Errors
/// Want of memory, and of numbers. `Twice` only where a scope has a name twice: the second row of the name.
pub fn fill<'a>(
    alloc: Global,
    entries: &mut Vec<Entry<'a>>,
) -> Result<Vec<Scope<'a>>, RowsFault<'a>>
    ensures grown { IfOk result (λ scopes. (top : List told.Row) (outermost : code_scope.Scope)
        → IsGrown top entries.old.items outermost [] 0
        → IsGrown top entries.new.items outermost scopes.items (length entries.new.items)) }
    ensures small { IfOk result (λ _. length entries.new.items < 2 ^ 32) }
    ensures again { IfErr result (λ e. (r : code_row.Row) → e ≡ rows_fault.Twice r → (top : List told.Row) (outermost : code_scope.Scope)
        → IsGrown top entries.old.items outermost [] 0 → IsAgain top (view_row r)) }
{
    let mut scopes = Vec::new(alloc);
    for number in 0..u32::MAX {
        if number as usize == entries.len() {
            return Ok(scopes);
        }
        push_inside(alloc, entries, &mut scopes, number)?;
    }
    Err(RowsFault::NoMemory)
}
