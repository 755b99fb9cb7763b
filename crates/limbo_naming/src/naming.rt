//! What names name, for those who ask.

ghost use Rattle.std.specs.Prelude.{◌≡◌, ◌<◌, ℕ, List, Option, None, Some, length, IfOk, IfSome, IfNone};
ghost use Rattle.limbo_tree.specs.View.{view_qual, view_expr, name_of};
ghost use Rattle.limbo_entries.specs.Entries.{Entry, AreOnce};
ghost use Rattle.limbo_entries.specs.View.{entries_of};
ghost use Rattle.limbo_naming.specs.Direct.{DeclaresOf};
ghost use Rattle.limbo_naming.specs.Qualified.{Qualified, Simple, Member, Part, with_member, of_type, of_expr};
ghost use Rattle.limbo_naming.specs.Naming.{Leads};
ghost use Rattle.limbo_naming.specs.Search.{AreKnown, AreDone, Says};
ghost use Rattle.limbo_naming.specs.Told.{Tells, TellsOf, Knows, IsNaming};
ghost use Rattle.limbo_naming.specs.declared.naming.Named.TheVariants as named;
ghost use Rattle.limbo_naming.specs.declared.state.State.{State};

use crate::search::search;
use crate::sight::{Sight, member_of, part_of};
use crate::state::{Found, State};
use crate::written::{Written, has_parts, is_module};
use inf_text::Text;
use limbo_entries::Table;
use limbo_tree::{Expr, Qual};
use std::alloc::{AllocError, Global};

/// What a name names.
#[derive(Clone, Copy)]
pub enum Named {
    /// The declaration of this number.
    Found(u32),
    /// The name isn't there: refusal 42 where a type is named.
    Unknown,
    /// What stands before it has no members or parts, or names go in a circle.
    Nothing,
}

/// What the names of a source name: a table of its declarations, and what each of them leads to.
#[derive(Drop)]
pub struct Naming<'t, 'a> {
    table: &'t Table<'a>,
    implemented: u32,
    states: Vec<State>,
}

// What was found, where nothing is left to be found out.
fn told(found: Found) -> Named
    ensures { (es : List Entry) (m : ℕ) (states : List State) (scope : Option ℕ) (q : Qualified) → AreKnown es m states → AreDone states
        → Says es m states scope q found → Tells es m scope q result }
{
    match found {
        Found::Named(found) => Named::Found(found),
        Found::Unknown => Named::Unknown,
        _ => Named::Nothing,
    }
}

impl<'t, 'a> Naming<'t, 'a> {
    /// What the names of these declarations name, if the implemented module has this number.
    ///
    /// # Errors
    /// Want of memory.
    pub fn new(
        alloc: Global,
        table: &'t Table<'a>,
        implemented: u32,
    ) -> Result<Naming<'t, 'a>, AllocError>
        requires once { AreOnce (entries_of table.now.entries.items) }
        ensures names { IfOk result (λ n. IsNaming table.now implemented n) }
    {
        let states = search(alloc, table, implemented)?;
        Ok(Naming {
            table,
            implemented,
            states,
        })
    }

    /// The table of the declarations.
    pub fn table(&self) -> &'t Table<'a>
        ensures { result.now ≡ self.now.table.now }
    {
        self.table
    }

    // What is seen from here.
    fn sight(&self) -> Sight<'_, 'a>
        ensures table { result.table ≡ self.now.table }
        ensures implemented { result.implemented ≡ self.now.implemented }
        ensures states { result.states.now ≡ self.now.states.items }
    {
        Sight {
            table: self.table,
            implemented: self.implemented,
            states: &self.states,
        }
    }

    /// What the name of a type names in a scope.
    pub fn type_named(&self, scope: Option<u32>, name: &Qual) -> Named
        requires names { Knows self.now }
        ensures named { TellsOf self.now scope (of_type (view_qual name.now)) result }
    {
        told(self.sight().qual(scope, name))
    }

    /// What a name alone names in a scope.
    pub fn name_named(&self, scope: Option<u32>, name: &Text) -> Named
        requires names { Knows self.now }
        ensures named { TellsOf self.now scope (Simple name.now) result }
    {
        told(self.sight().simple(scope, name))
    }

    /// What a name that is imported from a module names in a scope.
    pub fn import_named(&self, scope: Option<u32>, source: &Text, name: &Text) -> Named
        requires names { Knows self.now }
        ensures named { TellsOf self.now scope (Member (Simple source.now) name.now) result }
    {
        let name = Written::Imported { source, name };
        told(self.sight().written(scope, name))
    }

    /// What an expression that is a name names in a scope; none where it is no name.
    pub fn expr_named(&self, scope: Option<u32>, e: &Expr) -> Option<Named>
        requires names { Knows self.now }
        ensures named { IfSome result (λ n. (q : Qualified) × (of_expr (view_expr e.now) ≡ Some q) × TellsOf self.now scope q n) }
        ensures no_name { IfNone result (of_expr (view_expr e.now) ≡ None) }
    {
        match self.sight().expr(scope, e) {
            None => None,
            Some(found) => Some(told(found)),
        }
    }

    /// What a declaration leads to: itself, or what it stands for; none where names go in a circle or aren't there.
    pub fn lead(&self, number: u32) -> Option<u32>
        requires names { Knows self.now }
        requires there { number < length self.now.table.now.entries.items }
        ensures leads { IfSome result (λ r. Leads (entries_of self.now.table.now.entries.items) self.now.implemented number r) }
        ensures nowhere { IfNone result ((r : ℕ) → Leads (entries_of self.now.table.now.entries.items) self.now.implemented number r → ⊥) }
    {
        match self.states[number as usize] {
            State::Done(found) => found,
            State::NotYet => None,
            State::Entered => None,
        }
    }

    // What a name names in a scope, with a member where one is written behind it.
    fn module_named(&self, scope: Option<u32>, name: &Qual) -> Named
        requires names { Knows self.now }
        ensures named { TellsOf self.now scope (with_member (Simple name.now.first.text) (name_of name.now.member)) result }
    {
        let sight = self.sight();
        told(sight.with_member(sight.simple(scope, &name.first.text), &name.member))
    }

    // The declaration that a name alone names in a scope.
    fn name_declared(&self, scope: Option<u32>, name: &Text) -> Named
        requires names { Knows self.now }
        ensures declared { DeclaresOf self.now scope (Simple name.now) result }
    {
        match self.table.find(self.implemented, scope, name) {
            None => Named::Unknown,
            Some(found) => Named::Found(found),
        }
    }

    // The member of a declaration that is named.
    fn member_from(&self, outer: u32, name: &Text) -> Named
        requires names { Knows self.now }
        ensures declared { (scope : Option ℕ) (q : Qualified) → TellsOf self.now scope q (named.Found outer)
            → DeclaresOf self.now scope (Member q name.now) result }
    {
        if outer as usize >= self.table.entries.len() {
            return Named::Nothing;
        }
        let entry = &self.table.entries[outer as usize];
        if !is_module(entry.row.declared) {
            return Named::Nothing;
        }
        match member_of(self.table, outer, entry, name) {
            None => Named::Unknown,
            Some(found) => Named::Found(found),
        }
    }

    // The part of a declaration that is named.
    fn part_from(&self, outer: u32, name: &Text) -> Named
        requires names { Knows self.now }
        ensures declared { (scope : Option ℕ) (q : Qualified) → TellsOf self.now scope q (named.Found outer)
            → DeclaresOf self.now scope (Part q name.now) result }
    {
        if outer as usize >= self.table.entries.len() {
            return Named::Nothing;
        }
        let entry = &self.table.entries[outer as usize];
        if !has_parts(entry.row.declared) {
            return Named::Nothing;
        }
        match part_of(self.table, outer, entry, name) {
            None => Named::Unknown,
            Some(found) => Named::Found(found),
        }
    }

    // The member of what is named.
    fn member_declared(&self, outer: Named, name: &Text) -> Named
        requires names { Knows self.now }
        ensures declared { (scope : Option ℕ) (q : Qualified) → TellsOf self.now scope q outer
            → DeclaresOf self.now scope (Member q name.now) result }
    {
        match outer {
            Named::Found(outer) => self.member_from(outer, name),
            Named::Unknown => Named::Unknown,
            Named::Nothing => Named::Nothing,
        }
    }

    // The part of what is named.
    fn part_declared(&self, outer: Named, name: &Text) -> Named
        requires names { Knows self.now }
        ensures declared { (scope : Option ℕ) (q : Qualified) → TellsOf self.now scope q outer
            → DeclaresOf self.now scope (Part q name.now) result }
    {
        match outer {
            Named::Found(outer) => self.part_from(outer, name),
            Named::Unknown => Named::Unknown,
            Named::Nothing => Named::Nothing,
        }
    }

    /// The declaration that the name of a type names in a scope, itself not followed: where it is declared by `type`, what it is
    /// declared as isn't lost.
    pub fn declared(&self, scope: Option<u32>, name: &Qual) -> Named
        requires names { Knows self.now }
        ensures declared { DeclaresOf self.now scope (of_type (view_qual name.now)) result }
    {
        match &name.part {
            Some(part) => self.part_declared(self.module_named(scope, name), &part.text),
            None => match &name.member {
                Some(member) => {
                    let outer = self.name_named(scope, &name.first.text);
                    self.member_declared(outer, &member.text)
                }
                None => self.name_declared(scope, &name.first.text),
            },
        }
    }

    /// The member that a name that is imported from a module names in a scope, itself not followed.
    pub fn import_declared(&self, scope: Option<u32>, source: &Text, name: &Text) -> Named
        requires names { Knows self.now }
        ensures declared { DeclaresOf self.now scope (Member (Simple source.now) name.now) result }
    {
        self.member_declared(self.name_named(scope, source), name)
    }
}
