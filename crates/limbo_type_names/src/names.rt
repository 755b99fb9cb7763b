//! The types of a source, for those who ask.

ghost use Rattle.std.specs.Prelude.{◌≡◌, ◌<◌, ◌≤◌, ℕ, Some, length, slice_get, IfOk, IfErr, IfSome, IfNone};
ghost use Rattle.limbo_tree.specs.View.{view_type};
ghost use Rattle.limbo_types.specs.View.{view_ty};
ghost use Rattle.limbo_entries.specs.Entries.{Entry, IsEntry};
ghost use Rattle.limbo_naming.specs.Told.{Knows};
ghost use Rattle.limbo_type_names.specs.Sizes.{size};
ghost use Rattle.limbo_type_names.specs.Numbers.{number_of};
ghost use Rattle.limbo_type_names.specs.Means.{Means, Stands, IsNoType};
ghost use Rattle.limbo_type_names.specs.Writes.{Fails};
ghost use Rattle.limbo_type_names.specs.Refusals.{FailsAt};
ghost use Rattle.limbo_type_names.specs.Working.{entries_in, AreBehind};
ghost use Rattle.limbo_type_names.specs.Told.{KnowsTypes, AreTypesOf};

use crate::counted::Counted;
use crate::fault::{TypeFault, TypesFault};
use crate::known::Known;
use crate::meaning::type_in;
use crate::needs::all_needs;
use crate::numbers::number_all;
use crate::standing::{fill, none_known};
use limbo_entries::Table;
use limbo_naming::Naming;
use limbo_order::{OrderFault, order};
use limbo_tree::TypeTree;
use limbo_types::Ty;
use std::alloc::{AllocError, Global};

/// The types of a source: what its names name, and what each declaration stands for.
#[derive(Drop)]
pub struct TypeNames<'n, 't, 'a> {
    naming: &'n Naming<'t, 'a>,
    // Of each declaration that is an adt, a module or a variant its number.
    numbers: Vec<u32>,
    // Of each declaration what it stands for.
    types: Vec<Option<Counted>>,
}

// Numbers of declarations, each behind those that it needs.
fn order_all(alloc: Global, naming: &Naming) -> Result<Vec<u32>, TypesFault>
    requires names { Knows naming.now }
    ensures there { IfOk result (λ order. (i n : ℕ) → slice_get order.items i ≡ Some n → n < length naming.now.table.now.entries.items) }
    ensures each { IfOk result (λ order. (n : ℕ) → n < length naming.now.table.now.entries.items
        → (i : ℕ) × (slice_get order.items i ≡ Some n)) }
    ensures behind { IfOk result (λ order. AreBehind naming.now order.items) }
    ensures fails { IfErr result (λ e. FailsAt naming.now.table.now.entries.items naming.now.implemented e) }
{
    let needs = all_needs(alloc, naming)?;
    match order(alloc, &needs) {
        Ok(order) => Ok(order),
        Err(OrderFault::NoMemory) => Err(TypesFault::NoMemory),
        Err(OrderFault::Cycle { number }) => Err(TypesFault::TypeTooLarge { number }),
    }
}

impl<'n, 't, 'a> TypeNames<'n, 't, 'a> {
    /// The types of the source whose names name this.
    ///
    /// # Errors
    /// Want of memory, also where a type has more than 4,096 nodes. `TypeTooLarge` exactly where a name by `type` needs itself, at once or
    /// through others; else `Unknown` and `NotAType` exactly where a name in what is declared by `type` isn't there or is no type.
    pub fn new(
        alloc: Global,
        naming: &'n Naming<'t, 'a>,
    ) -> Result<TypeNames<'n, 't, 'a>, TypesFault>
        requires names { Knows naming.now }
        ensures types { IfOk result (λ t. AreTypesOf naming.now t) }
        ensures fails { IfErr result (λ e. FailsAt naming.now.table.now.entries.items naming.now.implemented e) }
    {
        let order = match order_all(alloc, naming) {
            Ok(order) => order,
            Err(fault) => return Err(fault),
        };
        let numbers = number_all(alloc, naming.table())?;
        let mut types = none_known(alloc, naming.table().entries.len())?;
        match fill(alloc, naming, &numbers, &order, &mut types) {
            Ok(()) => Ok(TypeNames {
                naming,
                numbers,
                types,
            }),
            Err(fault) => Err(fault),
        }
    }

    /// The table of the declarations.
    pub fn table(&self) -> &'t Table<'a>
        ensures { result.now ≡ self.now.naming.now.table.now }
    {
        self.naming.table()
    }

    // What is known of names.
    fn known(&self) -> Known<'_, 't, 'a>
        ensures naming { result.naming.now ≡ self.now.naming.now }
        ensures numbers { result.numbers.now ≡ self.now.numbers.items }
        ensures types { result.types.now ≡ self.now.types.items }
    {
        Known {
            naming: self.naming,
            numbers: &self.numbers,
            types: &self.types,
        }
    }

    /// The type that a type means which is written in a scope. It has at most 4,096 nodes.
    ///
    /// # Errors
    /// Want of memory, also where the type has more than 4,096 nodes. `Unknown` and `NotAType` exactly where a name in it isn't there or is
    /// no type: the first such, and where it stands.
    pub fn type_of(
        &self,
        alloc: Global,
        scope: Option<u32>,
        written: &TypeTree,
    ) -> Result<Ty, TypeFault>
        requires types { KnowsTypes self.now }
        ensures means { IfOk result (λ t. Means (entries_in self.now.naming.now) self.now.naming.now.implemented scope
            (view_type written.now) (view_ty t)) }
        ensures small { IfOk result (λ t. size (view_ty t) ≤ 4096) }
        ensures fails { IfErr result (λ e. Fails (entries_in self.now.naming.now) self.now.naming.now.implemented scope written.now e) }
    {
        match type_in(alloc, self.known(), scope, written) {
            Ok(counted) => {
                let Counted { ty, .. } = counted;
                Ok(ty)
            }
            Err(fault) => Err(fault),
        }
    }

    /// The type that a declaration stands for: none where it is no type.
    pub fn declared(&self, number: u32) -> Option<&Ty>
        requires types { KnowsTypes self.now }
        requires there { number < length self.now.naming.now.table.now.entries.items }
        ensures some { IfSome result (λ t. Stands (entries_in self.now.naming.now) self.now.naming.now.implemented number (view_ty t.now)) }
        ensures none { IfNone result (IsNoType (entries_in self.now.naming.now) self.now.naming.now.implemented number) }
    {
        match &self.types[number as usize] {
            Some(counted) => Some(&counted.ty),
            None => None,
        }
    }

    /// The number of an adt among the adts, of a module among the modules, or of a variant in its adt.
    pub fn number(&self, number: u32) -> u32
        requires types { KnowsTypes self.now }
        requires there { number < length self.now.naming.now.table.now.entries.items }
        ensures { (e : Entry) → IsEntry (entries_in self.now.naming.now) number e
            → result ≡ number_of (entries_in self.now.naming.now) number e }
    {
        self.numbers[number as usize]
    }
}
