//! Members of modules and of adts.

ghost use Rattle.std.specs.Prelude.{◌≡◌, map, IfOk, IfSome, IfNone};
ghost use Rattle.limbo_layout.specs.View.{view_defs, view_variant};
ghost use Rattle.limbo_refusals.specs.Refusals.{NoneIs};
ghost use Rattle.limbo_context.specs.Context as names;
ghost use Rattle.limbo_context.specs.View.{view_context};

use crate::context::Context;
use inf_text::Text;
use limbo_layout::{AdtDef, Variant};
use limbo_scope::{Meaning, Scopes};
use std::alloc::AllocError;

// What a name means in the scopes of a number.
fn named_in(rows: &[Scopes], number: u32, name: &Text) -> Option<Meaning>
    ensures { result ≡ names.named_in rows.now number name.now }
{
    rows.get(number as usize)?.look_up(name)
}

// The place of the first variant of this name.
fn variant_named(picks: &[Variant], name: &Text) -> Option<usize>
    ensures found { IfSome result (λ n. names.IsFirstNamed (map view_variant picks.now) name.now n) }
    ensures none { IfNone result (NoneIs (names.IsFirstNamed (map view_variant picks.now) name.now)) }
{
    for (place, variant) in picks.iter().enumerate() {
        if variant.name == *name {
            return Some(place);
        }
    }
    None
}

// The number of the variant of this name of the adt of this number.
fn variant_of(adts: &[AdtDef], adt: u32, name: &Text) -> Option<usize>
    ensures found { IfSome result (λ n. names.HasVariantAt (view_defs adts.now) adt name.now n) }
    ensures none { IfNone result (NoneIs (names.HasVariantAt (view_defs adts.now) adt name.now)) }
{
    match adts.get(adt as usize) {
        Some(def) => variant_named(&def.picks, name),
        None => None,
    }
}

impl Context {
    /// What the member of this name of a module type means, if it has one. A module's variables are no members.
    pub fn exported(&self, interface: u32, name: &Text) -> Option<Meaning>
        ensures found { IfSome result (λ m. names.Exports (view_context self.now) interface name.now m) }
        ensures none { IfNone result (NoneIs (names.Exports (view_context self.now) interface name.now)) }
    {
        named_in(&self.exports, interface, name)
    }

    /// What the member of this name of an adt means, if it has one. Fields and variants are none.
    pub fn member(&self, adt: u32, name: &Text) -> Option<Meaning>
        ensures found { IfSome result (λ m. names.HasMember (view_context self.now) adt name.now m) }
        ensures none { IfNone result (NoneIs (names.HasMember (view_context self.now) adt name.now)) }
    {
        named_in(&self.members, adt, name)
    }

    /// The number of the variant of this name of an adt, if it has one.
    ///
    /// # Errors
    /// Want of numbers: where the adt has more variants than there are numbers.
    pub fn variant(&self, adt: u32, name: &Text) -> Result<Option<u32>, AllocError>
        ensures found { IfOk result (λ o. IfSome o (λ v. names.HasVariantNamed (view_context self.now) adt name.now v)) }
        ensures none { IfOk result (λ o. IfNone o (NoneIs (names.HasVariantNamed (view_context self.now) adt name.now))) }
    {
        match variant_of(self.adts.defs(), adt, name) {
            None => Ok(None),
            Some(place) => match u32::try_from(place) {
                Ok(number) => Ok(Some(number)),
                Err(_) => Err(AllocError),
            },
        }
    }
}
