//! The table.

ghost use Rattle.std.specs.Prelude.{◌≡◌, ◌+◌, ◌<◌, ◌^◌, ℕ, None, length, List, IfOk, IfErr, IfSome, IfNone};
ghost use Rattle.limbo_declarations.specs.View.{rows_of, view_row};
ghost use Rattle.limbo_declarations.specs.declared.row.Row as code_row;
ghost use Rattle.limbo_declarations.specs.declared.names.RowsFault.TheVariants as rows_fault;
ghost use Rattle.limbo_entries.specs.Entries.{IsTable, IsEntry, AreOnce, IsMember, HasNone, Finds, HasTwice, IsAgain};
ghost use Rattle.limbo_entries.specs.Growing.{IsScope, AreScopes, LeadsOutwards};
ghost use Rattle.limbo_entries.specs.View.{view_entry, entries_of, keys};

use crate::entry::Entry;
use crate::filling::{fill, push_rows};
use crate::scope::Scope;
use inf_text::Text;
use limbo_declarations::{Row, RowsFault};
use std::alloc::Global;

/// All declarations of a top level, and of what stands inside them. Each is known by its number.
#[derive(Drop)]
pub struct Table<'a> {
    /// The declarations: those of the top level first, as they stand in the source.
    pub entries: Vec<Entry<'a>>,
    // The scope of the top level.
    outermost: Scope<'a>,
    // Of each declaration the scope of what stands inside it.
    scopes: Vec<Scope<'a>>,
    ghost at_top: { IsScope (keys entries.items) None outermost },
    ghost inside: { AreScopes (keys entries.items) scopes.items },
    ghost many: { length scopes.items ≡ length entries.items },
    ghost outwards: { LeadsOutwards (keys entries.items) },
    ghost small: { length entries.items < 2 ^ 32 },
}

impl<'a> Table<'a> {
    /// The table of a top level that has these rows.
    ///
    /// # Errors
    /// Want of memory, also where there are more declarations than numbers. `Twice` only where a scope has a name twice: the second row
    /// of the name. Where a scope has, there is no table.
    pub fn new(alloc: Global, rows: Vec<Row<'a>>) -> Result<Table<'a>, RowsFault<'a>>
        ensures table { IfOk result (λ t. IsTable (rows_of rows.entry.items) (entries_of t.entries.items)) }
        ensures once { IfOk result (λ t. AreOnce (entries_of t.entries.items)) }
        ensures none_twice { IfOk result (λ _. HasTwice (rows_of rows.entry.items) → ⊥) }
        ensures twice { IfErr result (λ e. (r : code_row.Row) → e ≡ rows_fault.Twice r → HasTwice (rows_of rows.entry.items)) }
        ensures again { IfErr result (λ e. (r : code_row.Row) → e ≡ rows_fault.Twice r → IsAgain (rows_of rows.entry.items) (view_row r)) }
    {
        let mut entries = Vec::new(alloc);
        let outermost = push_rows(alloc, &mut entries, None, rows)?;
        let scopes = fill(alloc, &mut entries)?;
        Ok(Table {
            entries,
            outermost,
            scopes,
        })
    }

    /// The declaration of a number.
    pub fn entry(&self, number: u32) -> Entry<'a>
        requires { number < length self.now.entries.items }
        ensures { IsEntry (entries_of self.now.entries.items) number (view_entry result) }
    {
        self.entries[number as usize]
    }

    // The scope of the top level, or of what stands inside the declaration of a number.
    fn scope(&self, number: Option<u32>) -> Option<&Scope<'a>>
        ensures some { IfSome result (λ s. IsScope (keys self.now.entries.items) number s.now) }
        ensures none { IfNone result ((name : List ℕ) → HasNone (entries_of self.now.entries.items) number name) }
    {
        match number {
            None => Some(&self.outermost),
            Some(number) => self.scopes.get(number as usize),
        }
    }

    /// The number of the declaration of this name at the top level, or inside the declaration of a number.
    pub fn member(&self, scope: Option<u32>, name: &Text) -> Option<u32>
        ensures found { IfSome result (λ k. IsMember (entries_of self.now.entries.items) scope name.now k) }
        ensures within { IfSome result (λ k. k < length self.now.entries.items) }
        ensures absent { IfNone result (HasNone (entries_of self.now.entries.items) scope name.now) }
    {
        match self.scope(scope) {
            None => None,
            Some(scope) => match scope.names.find(name) {
                None => None,
                Some(place) => Some((scope.first + place) as u32),
            },
        }
    }

    /// What a name is in a scope, if the implemented module has this number: the innermost declaration counts, and the members of the
    /// module are names of the top level that any declaration there hides.
    pub fn find(&self, implemented: u32, scope: Option<u32>, name: &Text) -> Option<u32>
        ensures found { IfSome result (λ k. Finds (entries_of self.now.entries.items) implemented name.now scope k) }
        ensures within { IfSome result (λ k. k < length self.now.entries.items) }
        ensures absent { IfNone result ((k : ℕ) → Finds (entries_of self.now.entries.items) implemented name.now scope k → ⊥) }
    {
        let mut at = scope;
        while let Some(number) = at {
            if let Some(found) = self.member(at, name) {
                return Some(found);
            }
            if number as usize >= self.entries.len() {
                return None;
            }
            at = self.entries[number as usize].within;
        }
        match self.member(None, name) {
            Some(found) => Some(found),
            None => self.member(Some(implemented), name),
        }
    }
}
