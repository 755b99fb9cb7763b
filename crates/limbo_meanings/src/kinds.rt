//! Which kinds declarations have.

ghost use Rattle.std.specs.Prelude.{◌≡◌};
ghost use Rattle.limbo_declarations.specs.View.{view_declared};
ghost use Rattle.limbo_entries.specs.View.{entries_of, view_entry};
ghost use Rattle.limbo_meanings.specs.Kinds as kinds;

use crate::kind::Kind;
use limbo_declarations::Declared;
use limbo_entries::{Entry, Table};

// Whether a scope is the top level, or that of the implemented module.
fn is_outermost(implemented: u32, scope: Option<u32>) -> bool
    ensures { result ≡ kinds.is_outermost implemented scope }
{
    match scope {
        None => true,
        Some(outer) => outer == implemented,
    }
}

// Whether a declaration is an adt of the implemented module.
fn is_own_adt(implemented: u32, entry: Entry) -> bool
    ensures { result ≡ kinds.is_own_adt implemented (view_entry entry.entry) }
{
    match entry.row.declared {
        Declared::Adt { .. } => is_outermost(implemented, entry.within),
        _ => false,
    }
}

// Whether functions that stand in a scope are functions of the implemented module.
fn is_own(table: &Table, implemented: u32, scope: Option<u32>) -> bool
    ensures { result ≡ kinds.is_own (entries_of table.now.entries.items) implemented scope }
{
    match scope {
        None => true,
        Some(outer) => {
            outer == implemented
                || match table.entries.get(outer as usize) {
                    None => false,
                    Some(entry) => is_own_adt(implemented, *entry),
                }
        }
    }
}

// The kind of what is declared so.
fn kind_in(own: bool, outermost: bool, declared: Declared) -> Option<Kind>
    ensures { result ≡ kinds.kind_in own outermost (view_declared declared.entry) }
{
    match declared {
        Declared::Constant { .. } => Some(Kind::Constant),
        Declared::Alias(_) => Some(Kind::Type),
        Declared::Variable { .. } => if outermost { Some(Kind::Global) } else { None },
        Declared::Inferred(_) => if outermost { Some(Kind::Global) } else { None },
        Declared::Imported(_) => Some(Kind::Import),
        Declared::Exception(_) => Some(Kind::Exception),
        Declared::Module(_) => Some(Kind::Module),
        Declared::Adt { .. } => Some(Kind::Adt),
        Declared::Function(_) => if own { Some(Kind::Function) } else { None },
        Declared::Case(_) => None,
    }
}

/// The kind of a declaration, if the implemented module has this number.
pub fn kind_of(table: &Table, implemented: u32, entry: Entry) -> Option<Kind>
    ensures { result ≡ kinds.kind_of (entries_of table.now.entries.items) implemented (view_entry entry.entry) }
{
    kind_in(
        is_own(table, implemented, entry.within),
        is_outermost(implemented, entry.within),
        entry.row.declared,
    )
}

/// Whether a declaration has a kind, if the implemented module has this number.
pub fn is_of_kind(table: &Table, implemented: u32, kind: Kind, entry: Entry) -> bool
    ensures { result ≡ kinds.has_kind (entries_of table.now.entries.items) implemented (kinds.place kind) (view_entry entry.entry) }
{
    match kind_of(table, implemented, entry) {
        None => false,
        Some(found) => found.place() == kind.place(),
    }
}
