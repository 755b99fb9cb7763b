//! What is known of names while types are found.

ghost use Rattle.std.specs.Prelude.{◌≡◌, ◌<◌, ◌∷◌, [], ℕ, length, IfOk, IfErr, IfSome, IfNone, true, false};
ghost use Rattle.limbo_tree.specs.Types as tree;
ghost use Rattle.limbo_tree.specs.View.{view_qual};
ghost use Rattle.limbo_types.specs.Types.{Adt};
ghost use Rattle.limbo_types.specs.View.{view_ty};
ghost use Rattle.limbo_declarations.specs.View.{view_declared};
ghost use Rattle.limbo_naming.specs.Naming as naming;
ghost use Rattle.limbo_naming.specs.Qualified.{of_type};
ghost use Rattle.limbo_type_names.specs.Means.{Means, Stands, RefersTo, IsNoType, HasNoRef, IsVariant};
ghost use Rattle.limbo_type_names.specs.Working.{entries_in, IsKnown, Sees, AreReady, FailsName, StandsForNoAdt};

use crate::counted::{Counted, copy_of, leaf};
use crate::fault::TypeFault;
use inf_text::Span;
use limbo_declarations::Declared;
use limbo_naming::{Named, Naming};
use limbo_tree::Qual;
use limbo_types::Ty;
use std::alloc::Global;

/// What names name, the numbers of adts, modules and variants, and what declarations stand for, as far as it was found.
#[derive(Clone, Copy)]
pub(crate) struct Known<'k, 't, 'a> {
    pub(crate) naming: &'k Naming<'t, 'a>,
    pub(crate) numbers: &'k [u32],
    pub(crate) types: &'k [Option<Counted>],
}

// Whether it is a variant of an adt.
fn is_variant(declared: Declared) -> bool
    ensures { result ≡ naming.is_variant (view_declared declared.entry) }
{
    match declared {
        Declared::Case(_fields) => true,
        _ => false,
    }
}

impl<'k, 't, 'a> Known<'k, 't, 'a> {
    /// The type that a declaration stands for, if it does for one.
    pub(crate) fn type_at(&self, number: u32) -> Option<&'k Counted>
        requires known { IsKnown self.now number }
        ensures some { IfSome result (λ c. Stands (entries_in self.now.naming.now) self.now.naming.now.implemented number
            (view_ty c.now.ty)) }
        ensures none { IfNone result (IsNoType (entries_in self.now.naming.now) self.now.naming.now.implemented number) }
    {
        match &self.types[number as usize] {
            Some(counted) => Some(counted),
            None => None,
        }
    }

    // The number of the adt that a declaration stands for as a value.
    fn adt_at(&self, number: u32) -> Option<u32>
        requires known { IsKnown self.now number }
        ensures some { IfSome result (λ n. Stands (entries_in self.now.naming.now) self.now.naming.now.implemented number (Adt n)) }
        ensures none { IfNone result (StandsForNoAdt (entries_in self.now.naming.now) self.now.naming.now.implemented number) }
    {
        match self.type_at(number) {
            None => None,
            Some(counted) => match &counted.ty {
                Ty::Adt(adt) => Some(*adt),
                _ => None,
            },
        }
    }

    // The numbers of a variant and of its adt, if the declaration is one.
    fn variant_at(&self, number: u32) -> Option<(u32, u32)>
        requires sees { Sees self.now }
        requires there { number < length self.now.naming.now.table.now.entries.items }
        ensures some { IfSome result (λ v. IsVariant (entries_in self.now.naming.now) number v.0 v.1) }
        ensures none { IfNone result ((a v : ℕ) → IsVariant (entries_in self.now.naming.now) number a v → ⊥) }
    {
        let table = self.naming.table();
        let entry = table.entry(number);
        if !is_variant(entry.row.declared) {
            return None;
        }
        match entry.within {
            None => None,
            Some(outer) => {
                if outer as usize >= table.entries.len() {
                    return None;
                }
                Some((self.numbers[outer as usize], self.numbers[number as usize]))
            }
        }
    }

    /// The type that a name means which stands alone.
    ///
    /// # Errors
    /// Want of memory. `Unknown` exactly where the name isn't there, `NotAType` exactly where it names no type.
    pub(crate) fn named(
        &self,
        alloc: Global,
        scope: Option<u32>,
        name: &Qual,
        at: Span,
    ) -> Result<Counted, TypeFault>
        requires sees { Sees self.now }
        requires ready { AreReady self.now scope (of_type (view_qual name.now) ∷ []) }
        ensures means { IfOk result (λ c. Means (entries_in self.now.naming.now) self.now.naming.now.implemented scope
            (tree.Named (view_qual name.now)) (view_ty c.ty)) }
        ensures fails { IfErr result (λ e. FailsName (entries_in self.now.naming.now) self.now.naming.now.implemented scope
            (of_type (view_qual name.now)) false at e) }
    {
        match self.naming.declared(scope, name) {
            Named::Unknown => Err(TypeFault::Unknown { at }),
            Named::Nothing => Err(TypeFault::NotAType { at }),
            Named::Found(number) => match self.type_at(number) {
                None => Err(TypeFault::NotAType { at }),
                Some(counted) => Ok(copy_of(alloc, counted)?),
            },
        }
    }

    // The `ref` of what a declaration is: of a variant, or of the adt that it stands for.
    fn ref_to(&self, number: u32) -> Option<Ty>
        requires sees { Sees self.now }
        requires there { number < length self.now.naming.now.table.now.entries.items }
        requires known { IsKnown self.now number }
        ensures some { IfSome result (λ t. RefersTo (entries_in self.now.naming.now) self.now.naming.now.implemented number (view_ty t)) }
        ensures none { IfNone result (HasNoRef (entries_in self.now.naming.now) self.now.naming.now.implemented number) }
    {
        match self.variant_at(number) {
            Some((adt, variant)) => Some(Ty::RefPick { adt, variant }),
            None => match self.adt_at(number) {
                Some(adt) => Some(Ty::RefAdt(adt)),
                None => None,
            },
        }
    }

    /// The type that a name means behind `ref`.
    ///
    /// # Errors
    /// `Unknown` exactly where the name isn't there, `NotAType` exactly where it names neither an adt nor a variant.
    pub(crate) fn referred(
        &self,
        scope: Option<u32>,
        name: &Qual,
        at: Span,
    ) -> Result<Counted, TypeFault>
        requires sees { Sees self.now }
        requires ready { AreReady self.now scope (of_type (view_qual name.now) ∷ []) }
        ensures means { IfOk result (λ c. Means (entries_in self.now.naming.now) self.now.naming.now.implemented scope
            (tree.RefTo (view_qual name.now)) (view_ty c.ty)) }
        ensures fails { IfErr result (λ e. FailsName (entries_in self.now.naming.now) self.now.naming.now.implemented scope
            (of_type (view_qual name.now)) true at e) }
    {
        match self.naming.declared(scope, name) {
            Named::Unknown => Err(TypeFault::Unknown { at }),
            Named::Nothing => Err(TypeFault::NotAType { at }),
            Named::Found(number) => match self.ref_to(number) {
                Some(ty) => Ok(leaf(ty)),
                None => Err(TypeFault::NotAType { at }),
            },
        }
    }
}
