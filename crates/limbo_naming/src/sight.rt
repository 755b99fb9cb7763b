//! What names name, as far as it is known what declarations lead to.

ghost use Rattle.std.specs.Prelude.{◌≡◌, ◌<◌, ℕ, Option, None, length, IfSome, IfNone};
ghost use Rattle.limbo_tree.specs.View.{view_qual, view_expr, name_of};
ghost use Rattle.limbo_entries.specs.Entries.{AreOnce, IsEntry};
ghost use Rattle.limbo_entries.specs.View.{entries_of, view_entry};
ghost use Rattle.limbo_naming.specs.Naming.{IsMemberOf, IsPartOf};
ghost use Rattle.limbo_naming.specs.Qualified.{Qualified, Simple, Member, Part, with_member, with_part, of_type, of_expr};
ghost use Rattle.limbo_naming.specs.Search.{SaysOf, Tries};
ghost use Rattle.limbo_naming.specs.Seeing.{Sees, SaysIn, SaysOfExpr};
ghost use Rattle.limbo_naming.specs.declared.state.Found.TheVariants.{Named};
ghost use Rattle.limbo_naming.specs.View.{view_written};

use crate::state::{Found, State};
use crate::written::{Written, has_parts, is_adt, is_module, is_variable, is_variant, stands_for};
use inf_text::Text;
use limbo_entries::{Entry, Table};
use limbo_tree::{Expr, Name, Qual};

/// A table of declarations, the number of the implemented module, and what is known of where declarations lead.
#[derive(Clone, Copy)]
pub(crate) struct Sight<'s, 'a> {
    pub(crate) table: &'s Table<'a>,
    pub(crate) implemented: u32,
    pub(crate) states: &'s [State],
}

/// The member of a module, or of nothing else, that others may see.
pub(crate) fn member_of(table: &Table, outer: u32, entry: &Entry, name: &Text) -> Option<u32>
    requires once { AreOnce (entries_of table.now.entries.items) }
    requires entry { IsEntry (entries_of table.now.entries.items) outer (view_entry entry.now) }
    ensures found { IfSome result (λ k. IsMemberOf (entries_of table.now.entries.items) outer name.now k) }
    ensures within { IfSome result (λ k. k < length table.now.entries.items) }
    ensures absent { IfNone result ((k : ℕ) → IsMemberOf (entries_of table.now.entries.items) outer name.now k → ⊥) }
{
    if !is_module(entry.row.declared) {
        return None;
    }
    match table.member(Some(outer), name) {
        None => None,
        Some(found) => {
            if is_variable(table.entries[found as usize].row.declared) {
                return None;
            }
            Some(found)
        }
    }
}

/// The part of an adt or of a variant.
pub(crate) fn part_of(table: &Table, outer: u32, entry: &Entry, name: &Text) -> Option<u32>
    requires entry { IsEntry (entries_of table.now.entries.items) outer (view_entry entry.now) }
    ensures found { IfSome result (λ k. IsPartOf (entries_of table.now.entries.items) outer name.now k) }
    ensures within { IfSome result (λ k. k < length table.now.entries.items) }
    ensures absent { IfNone result ((k : ℕ) → IsPartOf (entries_of table.now.entries.items) outer name.now k → ⊥) }
{
    if is_adt(entry.row.declared) {
        return table.member(Some(outer), name);
    }
    if !is_variant(entry.row.declared) {
        return None;
    }
    match table.member(Some(outer), name) {
        Some(found) => Some(found),
        None => table.member(entry.within, name),
    }
}

impl<'s, 'a> Sight<'s, 'a> {
    // What is known of where a declaration leads.
    fn lead(&self, number: u32) -> Found
        requires sight { Sees self.now }
        requires there { number < length self.now.table.now.entries.items }
        ensures { SaysOf (entries_of self.now.table.now.entries.items) self.now.implemented self.now.states.now number result }
    {
        match self.states[number as usize] {
            State::Done(Some(found)) => Found::Named(found),
            State::Done(None) => Found::Nothing,
            State::NotYet => Found::Needs(number),
            State::Entered => Found::Needs(number),
        }
    }

    /// What a name alone names.
    pub(crate) fn simple(&self, scope: Option<u32>, name: &Text) -> Found
        requires sight { Sees self.now }
        ensures { SaysIn self.now scope (Simple name.now) result }
    {
        match self.table.find(self.implemented, scope, name) {
            None => Found::Unknown,
            Some(found) => self.lead(found),
        }
    }

    // What a member of a declaration that is named names.
    fn member_from(&self, outer: u32, name: &Text) -> Found
        requires sight { Sees self.now }
        ensures { (scope : Option ℕ) (q : Qualified) → SaysIn self.now scope q (Named outer)
            → SaysIn self.now scope (Member q name.now) result }
    {
        if outer as usize >= self.table.entries.len() {
            return Found::Nothing;
        }
        let entry = &self.table.entries[outer as usize];
        if !is_module(entry.row.declared) {
            return Found::Nothing;
        }
        match member_of(self.table, outer, entry, name) {
            None => Found::Unknown,
            Some(found) => self.lead(found),
        }
    }

    // What a part of a declaration that is named names.
    fn part_from(&self, outer: u32, name: &Text) -> Found
        requires sight { Sees self.now }
        ensures { (scope : Option ℕ) (q : Qualified) → SaysIn self.now scope q (Named outer)
            → SaysIn self.now scope (Part q name.now) result }
    {
        if outer as usize >= self.table.entries.len() {
            return Found::Nothing;
        }
        let entry = &self.table.entries[outer as usize];
        if !has_parts(entry.row.declared) {
            return Found::Nothing;
        }
        match part_of(self.table, outer, entry, name) {
            None => Found::Unknown,
            Some(found) => self.lead(found),
        }
    }

    // What is found of a member, by what is found of its module.
    fn member(&self, outer: Found, name: &Text) -> Found
        requires sight { Sees self.now }
        ensures { (scope : Option ℕ) (q : Qualified) → SaysIn self.now scope q outer → SaysIn self.now scope (Member q name.now) result }
    {
        match outer {
            Found::Named(outer) => self.member_from(outer, name),
            _ => outer,
        }
    }

    // What is found of a part, by what is found of its adt.
    fn part(&self, outer: Found, name: &Text) -> Found
        requires sight { Sees self.now }
        ensures { (scope : Option ℕ) (q : Qualified) → SaysIn self.now scope q outer → SaysIn self.now scope (Part q name.now) result }
    {
        match outer {
            Found::Named(outer) => self.part_from(outer, name),
            _ => outer,
        }
    }

    /// What is found of a member, where one is written behind `->`, by what is found of its module.
    pub(crate) fn with_member(&self, outer: Found, name: &Option<Name>) -> Found
        requires sight { Sees self.now }
        ensures { (scope : Option ℕ) (q : Qualified) → SaysIn self.now scope q outer
            → SaysIn self.now scope (with_member q (name_of name.now)) result }
    {
        match name {
            None => outer,
            Some(name) => self.member(outer, &name.text),
        }
    }

    fn with_part(&self, outer: Found, name: &Option<Name>) -> Found
        requires sight { Sees self.now }
        ensures { (scope : Option ℕ) (q : Qualified) → SaysIn self.now scope q outer
            → SaysIn self.now scope (with_part q (name_of name.now)) result }
    {
        match name {
            None => outer,
            Some(name) => self.part(outer, &name.text),
        }
    }

    /// What the name of a type names.
    pub(crate) fn qual(&self, scope: Option<u32>, qual: &Qual) -> Found
        requires sight { Sees self.now }
        ensures { SaysIn self.now scope (of_type (view_qual qual.now)) result }
    {
        let first = self.simple(scope, &qual.first.text);
        let second = self.with_member(first, &qual.member);
        self.with_part(second, &qual.part)
    }

    /// What a name names as a declaration has it.
    pub(crate) fn written(&self, scope: Option<u32>, name: Written) -> Found
        requires sight { Sees self.now }
        ensures { SaysIn self.now scope (view_written name.entry) result }
    {
        match name {
            Written::Type(qual) => self.qual(scope, qual),
            Written::Imported { source, name } => {
                let outer = self.simple(scope, source);
                self.member(outer, name)
            }
        }
    }

    /// What a declaration leads to.
    pub(crate) fn attempt(&self, number: u32) -> Found
        requires sight { Sees self.now }
        requires there { number < length self.now.table.now.entries.items }
        ensures { Tries (entries_of self.now.table.now.entries.items) self.now.implemented self.now.states.now number result }
    {
        let entry = &self.table.entries[number as usize];
        match stands_for(entry.row) {
            None => Found::Named(number),
            Some(name) => self.written(entry.within, name),
        }
    }

    /// What an expression that is a name names.
    pub(crate) fn expr(&self, scope: Option<u32>, e: &Expr) -> Option<Found>
        requires sight { Sees self.now }
        ensures some { IfSome result (λ f. SaysOfExpr self.now scope (of_expr (view_expr e.now)) f) }
        ensures none { IfNone result (of_expr (view_expr e.now) ≡ None) }
    {
        match e {
            Expr::Name { name, .. } => Some(self.simple(scope, name)),
            Expr::Arrow { base, name, .. } => match self.expr(scope, base) {
                None => None,
                Some(outer) => Some(self.member(outer, &name.text)),
            },
            Expr::Dot { base, name, .. } => match self.expr(scope, base) {
                None => None,
                Some(outer) => Some(self.part(outer, &name.text)),
            },
            _ => None,
        }
    }
}
