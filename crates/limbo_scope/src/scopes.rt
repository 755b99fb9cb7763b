ghost use Rattle.std.specs.Prelude.{◌≡◌, ◌↔◌, ◌<◌, [], ◌∷◌, length, IsTrue, IsSome, IfOk, OnErr};
ghost use Rattle.std.specs.FinMap as map;
ghost use Rattle.limbo_scope.specs.Scopes as scopes;
ghost use Rattle.limbo_scope.specs.Maps.{scope_of, scopes_of};

use crate::meaning::Meaning;
use inf_text::Text;
use std::alloc::{AllocError, Global};
use std::collections::BTreeMap;
use std::marker::Model;
use std::mem;

/// Why a name isn't declared.
#[derive(Clone, Copy, PartialEq, Eq, Debug)]
pub enum ScopeFault {
    /// Want of memory.
    NoMemory,
    /// Refusal 41: the innermost scope declares the name already.
    Twice,
}

impl From<AllocError> for ScopeFault {
    ghost use Rattle.std.specs.Prelude.{◌≡◌};
    ghost use Rattle.limbo_scope.specs.declared.scopes.ScopeFault.TheVariants.{NoMemory};

    ghost from_gives = { λ _ e. e ≡ NoMemory };

    fn from(_error: AllocError) -> ScopeFault {
        ScopeFault::NoMemory
    }
}

/// Scopes, one in the other. There is always an innermost one.
#[derive(Drop)]
pub struct Scopes {
    alloc: Global,
    inner: BTreeMap<Text, Meaning>,
    // The scopes around it, the outermost first.
    outer: Vec<BTreeMap<Text, Meaning>>,
}

impl Model for Scopes {
    ghost use Rattle.std.specs.Prelude.{List};
    ghost use Rattle.std.specs.Coded.{coded_list};
    ghost use Rattle.limbo_scope.specs.Scopes.{Scope};
    ghost use Rattle.limbo_scope.specs.Codes.{scope_code};

    ghost Value = { List Scope };

    ghost coded = { coded_list scope_code };

    ghost use Rattle.limbo_scope.specs.View.{view_scopes};

    ghost view = { view_scopes };
}

impl Scopes {
    /// The outermost scope alone, in which no name is declared.
    pub fn new(alloc: Global) -> Scopes
        ensures { result ≡ map.empty ∷ [] }
    {
        Scopes {
            alloc,
            inner: BTreeMap::new(alloc),
            outer: Vec::new(alloc),
        }
    }

    /// How many scopes lie in one another: at least the outermost.
    pub fn depth(&self) -> usize
        ensures counted { result ≡ length self.now }
        ensures never_none { 0 < length self.now }
    {
        self.outer.len() + 1
    }

    /// Begins a scope inside the innermost one.
    ///
    /// # Errors
    /// Want of memory, which changes nothing.
    pub fn enter(&mut self) -> Result<(), AllocError>
        ensures entered { IfOk result (λ _. self.new ≡ scopes.entered self.old) }
        ensures kept { OnErr result (self.new ≡ self.old) }
    {
        self.outer.reserve(1)?;
        let around = mem::replace(&mut self.inner, BTreeMap::new(self.alloc));
        self.outer.push_reserved(around);
        Ok(())
    }

    /// Ends the innermost scope, and tells whether there was one to end: the outermost scope stays.
    pub fn leave(&mut self) -> bool
        ensures tells { IsTrue result ↔ (1 < length self.old) }
        ensures left { self.new ≡ scopes.left self.old }
    {
        match self.outer.pop() {
            Some(around) => {
                self.inner = around;
                true
            }
            None => false,
        }
    }

    /// Declares a name in the innermost scope.
    ///
    /// # Errors
    /// `Twice` exactly where the innermost scope declares the name already; `NoMemory`. A refusal changes nothing.
    pub fn declare(&mut self, name: &Text, meaning: Meaning) -> Result<(), ScopeFault>
        ensures declared { IfOk result (λ _. self.new ≡ scopes.declared name.now meaning self.old) }
        ensures once { IfOk result (λ _. scopes.declared_here name.now self.old ≡ None) }
        ensures twice { (result ≡ Err ScopeFault.Twice) ↔ IsSome (scopes.declared_here name.now self.old) }
        ensures kept { OnErr result (self.new ≡ self.old) }
    {
        let here = self.declared_here(name);
        if here.is_some() {
            return Err(ScopeFault::Twice);
        }
        insert(&mut self.inner, name.clone()?, meaning)?;
        Ok(())
    }

    /// What a name means here: the innermost scope that declares it counts.
    pub fn look_up(&self, name: &Text) -> Option<Meaning>
        ensures { result ≡ scopes.seen name.now self.now }
    {
        match find(&self.inner, name) {
            Some(meaning) => Some(meaning),
            None => find_around(&self.outer, name),
        }
    }

    /// What the innermost scope itself declares a name as.
    pub fn declared_here(&self, name: &Text) -> Option<Meaning>
        ensures { result ≡ scopes.declared_here name.now self.now }
    {
        find(&self.inner, name)
    }
}

// What one scope declares a name as.
fn find(scope: &BTreeMap<Text, Meaning>, name: &Text) -> Option<Meaning>
    ensures { result ≡ map.get (scope_of scope.now) name.now }
{
    scope.get(name).copied()
}

// Declares a name in one scope.
fn insert(
    scope: &mut BTreeMap<Text, Meaning>,
    name: Text,
    meaning: Meaning,
) -> Result<(), AllocError>
    ensures declared { IfOk result (λ _. scope_of scope.new ≡ map.insert (scope_of scope.old) name meaning) }
    ensures kept { OnErr result (scope_of scope.new ≡ scope_of scope.old) }
{
    scope.insert(name, meaning)?;
    Ok(())
}

// What a name means in scopes of which the innermost stands last.
fn find_around(around: &[BTreeMap<Text, Meaning>], name: &Text) -> Option<Meaning>
    ensures { result ≡ scopes.seen name.now (scopes_of around.now) }
{
    let mut rest = around;
    while let Some((innermost, outer)) = rest.split_last() {
        let meaning = find(innermost, name);
        if meaning.is_some() {
            return meaning;
        }
        rest = outer;
    }
    None
}
