//! The scopes of the members of adts and of module types.

ghost use Rattle.std.specs.Prelude.{◌≡◌, length, IfOk, IfErr};
ghost use Rattle.limbo_scope.specs.declared.scopes.ScopeFault.TheVariants.{Twice};
ghost use Rattle.limbo_entries.specs.Entries.{AreOnce};
ghost use Rattle.limbo_entries.specs.View.{entries_of};
ghost use Rattle.limbo_outline.specs.Outline.{ScopesAre};

use limbo_entries::Table;
use limbo_meanings::{Kind, inner_scopes};
use limbo_outline::list_scopes;
use limbo_scope::{Meaning, ScopeFault, Scopes};
use std::alloc::Global;

/// Of the declarations of a kind the scopes of what stands inside them, in order, by what the names of all declarations mean: of adts the
/// scopes of their members, of module types what they export.
///
/// # Errors
/// Want of memory. `Twice` only where a scope has a name twice.
pub fn scopes_of(
    alloc: Global,
    table: &Table,
    implemented: u32,
    kind: Kind,
    meanings: &[Option<Meaning>],
) -> Result<Vec<Scopes>, ScopeFault>
    requires many { length meanings.now ≡ length table.now.entries.items }
    ensures scopes { IfOk result (λ all. ScopesAre (entries_of table.now.entries.items) implemented kind meanings.now all.items) }
    ensures twice { IfErr result (λ e. e ≡ Twice → AreOnce (entries_of table.now.entries.items) → ⊥) }
{
    match inner_scopes(alloc, table, meanings) {
        Ok(inner) => Ok(list_scopes(alloc, table, implemented, kind, inner)?),
        Err(fault) => Err(fault),
    }
}
