//! The scopes that declarations make.

ghost use Rattle.std.specs.Prelude.{◌≡◌, ◌<◌, ℕ, List, [], None, Some, length, IfErr, OnOk, IfOk, IsSome, IsTrue};
ghost use Rattle.limbo_scope.specs.Scopes as stack;
ghost use Rattle.limbo_scope.specs.Scopes.{Scope};
ghost use Rattle.limbo_scope.specs.Laws.{declared_all};
ghost use Rattle.limbo_scope.specs.declared.scopes.ScopeFault.TheVariants.{Twice};
ghost use Rattle.limbo_entries.specs.Entries.{AreOnce};
ghost use Rattle.limbo_entries.specs.View.{entries_of, view_entry};
ghost use Rattle.limbo_meanings.specs.Names as names;
ghost use Rattle.limbo_meanings.specs.Names.{AreInner, IsRepeated};

use limbo_entries::{Entry, Table};
use limbo_scope::{Meaning, ScopeFault, Scopes};
use std::alloc::{AllocError, Global};

// Scopes that declare nothing, so many.
fn empty_scopes(alloc: Global, count: usize) -> Result<Vec<Scopes>, AllocError>
    ensures { IfOk result (λ all. all.items ≡ names.empty_each count) }
{
    let mut all = Vec::with_capacity(alloc, count)?;
    for _ in 0..count {
        all.push(Scopes::new(alloc))?;
    }
    Ok(all)
}

// Declares a name in the row of a declaration.
fn declare_at(
    rows: &mut Vec<Scopes>,
    outer: u32,
    entry: Entry,
    meaning: Meaning,
) -> Result<(), ScopeFault>
    requires there { outer < length rows.old.items }
    ensures declared { OnOk result (rows.new.items ≡ names.with_name rows.old.items outer entry.entry.row.name.now.text meaning) }
    ensures twice { IfErr result (λ e. e ≡ Twice → IsRepeated entry.entry.row.name.now.text (Some outer) rows.old.items) }
{
    match rows[outer as usize].declare(&entry.row.name.text, meaning) {
        Ok(()) => Ok(()),
        Err(fault) => Err(fault),
    }
}

// Declares the name of an entry, where it means something, in the row of what it stands in.
fn declare_entry(
    rows: &mut Vec<Scopes>,
    entry: Entry,
    meaning: Option<Meaning>,
) -> Result<(), ScopeFault>
    requires there { (a : ℕ) → entry.within ≡ Some a → a < length rows.old.items }
    ensures declared { OnOk result (rows.new.items ≡ names.with_entry (view_entry entry.entry) meaning rows.old.items) }
    ensures twice { IfErr result (λ e. e ≡ Twice → IsRepeated entry.entry.row.name.now.text entry.entry.within rows.old.items) }
{
    match meaning {
        None => Ok(()),
        Some(meaning) => match entry.within {
            None => Ok(()),
            Some(outer) => declare_at(rows, outer, entry, meaning),
        },
    }
}

/// Of each declaration the scope of what stands inside it, by the meanings of all.
///
/// # Errors
/// Want of memory. `Twice` only where a scope has a name twice.
pub fn inner_scopes(
    alloc: Global,
    table: &Table,
    meanings: &[Option<Meaning>],
) -> Result<Vec<Scopes>, ScopeFault>
    requires many { length meanings.now ≡ length table.now.entries.items }
    ensures scopes { IfOk result (λ rows. AreInner meanings.now (entries_of table.now.entries.items) rows.items) }
    ensures twice { IfErr result (λ e. e ≡ Twice → AreOnce (entries_of table.now.entries.items) → ⊥) }
{
    let mut rows = empty_scopes(alloc, table.entries.len())?;
    for (number, entry) in table.entries.iter().enumerate() {
        match declare_entry(&mut rows, *entry, meanings[number]) {
            Ok(()) => {}
            Err(fault) => return Err(fault),
        }
    }
    Ok(rows)
}

// Whether two scopes are one.
fn is_same(scope: Option<u32>, within: Option<u32>) -> bool
    ensures { result ≡ names.same_scope scope within }
{
    match scope {
        None => within.is_none(),
        Some(outer) => match within {
            None => false,
            Some(other) => outer == other,
        },
    }
}

// Declares the name of an entry, where it means something and stands in the scope.
fn declare_here(
    scopes: &mut Scopes,
    scope: Option<u32>,
    entry: Entry,
    meaning: Option<Meaning>,
) -> Result<(), ScopeFault>
    ensures declared { OnOk result (scopes.new ≡ declared_all (names.here scope (view_entry entry.entry) meaning) scopes.old) }
    ensures stands { IfErr result (λ e. e ≡ Twice → IsTrue (names.same_scope scope entry.entry.within)) }
    ensures twice { IfErr result (λ e. e ≡ Twice → IsSome (stack.declared_here entry.entry.row.name.now.text scopes.old)) }
{
    if !is_same(scope, entry.within) {
        return Ok(());
    }
    match meaning {
        None => Ok(()),
        Some(meaning) => scopes.declare(&entry.row.name.text, meaning),
    }
}

// Declares all names that stand in a scope.
fn declare_all(
    scopes: &mut Scopes,
    table: &Table,
    meanings: &[Option<Meaning>],
    scope: Option<u32>,
) -> Result<(), ScopeFault>
    requires many { length meanings.now ≡ length table.now.entries.items }
    ensures declared { OnOk result (scopes.new
        ≡ declared_all (names.names_in scope meanings.now (entries_of table.now.entries.items)) scopes.old) }
    ensures twice { IfErr result (λ e. e ≡ Twice → (outer : List Scope) → scopes.old ≡ stack.entered outer
        → AreOnce (entries_of table.now.entries.items) → ⊥) }
{
    for (number, entry) in table.entries.iter().enumerate() {
        match declare_here(scopes, scope, *entry, meanings[number]) {
            Ok(()) => {}
            Err(fault) => return Err(fault),
        }
    }
    Ok(())
}

/// The scopes in which a body begins: the members of the implemented module, which has this number, and in them the top level.
///
/// # Errors
/// Want of memory. `Twice` only where a scope has a name twice.
pub fn top_scopes(
    alloc: Global,
    table: &Table,
    implemented: u32,
    meanings: &[Option<Meaning>],
) -> Result<Scopes, ScopeFault>
    requires many { length meanings.now ≡ length table.now.entries.items }
    ensures scopes { IfOk result (λ s. s
        ≡ names.outermost_scopes implemented meanings.now (entries_of table.now.entries.items)) }
    ensures twice { IfErr result (λ e. e ≡ Twice → AreOnce (entries_of table.now.entries.items) → ⊥) }
{
    let mut scopes = Scopes::new(alloc);
    declare_all(&mut scopes, table, meanings, Some(implemented))?;
    scopes.enter()?;
    declare_all(&mut scopes, table, meanings, None)?;
    Ok(scopes)
}
