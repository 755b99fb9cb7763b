//! The members of adts and of module types.

ghost use Rattle.std.specs.Prelude.{◌≡◌, length, IfOk};
ghost use Rattle.limbo_entries.specs.Entries.{AreOnce};
ghost use Rattle.limbo_entries.specs.View.{entries_of};
ghost use Rattle.limbo_outline.specs.Outline.{ScopesAre};
ghost use Rattle.limbo_source_context.specs.Parts.{IsKnown, IsInner};

use crate::known::Known;
use limbo_entries::Table;
use limbo_meanings::Kind;
use limbo_outline_members::{list_interfaces, scopes_of};
use limbo_scope::{Meaning, ScopeFault, Scopes};
use limbo_typed::Interface;
use std::alloc::{AllocError, Global};

/// The scopes of the members of adts, the module types, and the scopes of what they export.
#[derive(Drop)]
pub(crate) struct Inner {
    pub(crate) members: Vec<Scopes>,
    pub(crate) interfaces: Vec<Interface>,
    pub(crate) exports: Vec<Scopes>,
}

// The scopes inside the declarations of a kind. None has a name twice.
fn find_scopes(
    alloc: Global,
    table: &Table,
    implemented: u32,
    kind: Kind,
    meanings: &[Option<Meaning>],
) -> Result<Vec<Scopes>, AllocError>
    requires many { length meanings.now ≡ length table.now.entries.items }
    requires once { AreOnce (entries_of table.now.entries.items) }
    ensures { IfOk result (λ all. ScopesAre (entries_of table.now.entries.items) implemented kind meanings.now all.items) }
{
    match scopes_of(alloc, table, implemented, kind, meanings) {
        Ok(scopes) => Ok(scopes),
        Err(ScopeFault::NoMemory) => Err(AllocError),
        Err(ScopeFault::Twice) => Err(AllocError),
    }
}

/// The members of the adts and of the module types of a table, by what is known of it.
///
/// # Errors
/// Want of memory.
pub(crate) fn find_inner(
    alloc: Global,
    table: &Table,
    implemented: u32,
    known: &Known,
) -> Result<Inner, AllocError>
    requires once { AreOnce (entries_of table.now.entries.items) }
    requires known { IsKnown table.now implemented known.now }
    ensures { IfOk result (λ i. IsInner (entries_of table.now.entries.items) implemented known.now.meant i) }
{
    let meant = &known.meant;
    let members = find_scopes(alloc, table, implemented, Kind::Adt, &meant.meanings)?;
    let interfaces = list_interfaces(alloc, table, implemented, meant.builtin, &known.headings)?;
    let exports = find_scopes(alloc, table, implemented, Kind::Module, &meant.others)?;
    Ok(Inner {
        members,
        interfaces,
        exports,
    })
}
