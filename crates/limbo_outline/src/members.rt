//! The scopes of adts, and of module types.

ghost use Rattle.std.specs.Prelude.{◌≡◌, ◌<◌, ◌+◌, ℕ, List, Option, Some, length, slice_get, IfOk, OnOk};
ghost use Rattle.limbo_scope.specs.Scopes.{Scope};
ghost use Rattle.limbo_scope.specs.declared.meaning.Meaning as names;
ghost use Rattle.limbo_entries.specs.View.{entries_of};
ghost use Rattle.limbo_meanings.specs.Names.{AreInner, scope_inside};
ghost use Rattle.limbo_outline.specs.Outline.{ScopesTo, ScopesAre};

use limbo_entries::Table;
use limbo_meanings::{Kind, is_of_kind};
use limbo_scope::Scopes;
use std::alloc::{AllocError, Global};
use std::mem;

// Takes the scope of a number out of a list; a scope without names stands there then.
fn take_scope(alloc: Global, rows: &mut Vec<Scopes>, number: u32) -> Scopes
    requires there { number < length rows.old.items }
    ensures taken { slice_get rows.old.items number ≡ Some result }
    ensures kept { (a : ℕ) → (a ≡ number → ⊥) → slice_get rows.new.items a ≡ slice_get rows.old.items a }
    ensures many { length rows.new.items ≡ length rows.old.items }
{
    mem::replace(&mut rows[number as usize], Scopes::new(alloc))
}

// Adds the scope of a declaration, if it is of the kind.
fn push_scope(
    alloc: Global,
    table: &Table,
    implemented: u32,
    kind: Kind,
    number: u32,
    rows: &mut Vec<Scopes>,
    scopes: &mut Vec<Scopes>,
) -> Result<(), AllocError>
    requires there { number < length table.now.entries.items }
    requires row { number < length rows.old.items }
    ensures scopes { OnOk result ((means : List (Option names.Meaning))
        → ((row : List Scope) → slice_get rows.old.items number ≡ Some row
        → row ≡ scope_inside number means (entries_of table.now.entries.items))
        → ScopesTo (entries_of table.now.entries.items) implemented kind means number scopes.old.items
        → ScopesTo (entries_of table.now.entries.items) implemented kind means (number + 1) scopes.new.items) }
    ensures kept { (a : ℕ) → (a ≡ number → ⊥) → slice_get rows.new.items a ≡ slice_get rows.old.items a }
    ensures many { length rows.new.items ≡ length rows.old.items }
{
    let entry = table.entries[number as usize];
    if !is_of_kind(table, implemented, kind, entry) {
        return Ok(());
    }
    let row = take_scope(alloc, rows, number);
    scopes.push(row)?;
    Ok(())
}

/// Of the scopes of what stands inside all declarations those of a kind, in order: of adts the scopes of their members, and of module
/// types what they export.
///
/// # Errors
/// Want of memory.
pub fn list_scopes(
    alloc: Global,
    table: &Table,
    implemented: u32,
    kind: Kind,
    inner: Vec<Scopes>,
) -> Result<Vec<Scopes>, AllocError>
    requires many { length inner.items ≡ length table.now.entries.items }
    ensures { IfOk result (λ all. (means : List (Option names.Meaning))
        → AreInner means (entries_of table.now.entries.items) inner.items
        → ScopesAre (entries_of table.now.entries.items) implemented kind means all.items) }
{
    let mut rows = inner;
    let mut scopes = Vec::new(alloc);
    for number in 0..table.entries.len() as u32 {
        push_scope(
            alloc,
            table,
            implemented,
            kind,
            number,
            &mut rows,
            &mut scopes,
        )?;
    }
    Ok(scopes)
}
