//! Things, and why a name is none.

ghost use Rattle.std.specs.Prelude.{◌≡◌, IfOk, IfErr};
ghost use Rattle.limbo_types.specs.View.{view_ty};
ghost use Rattle.limbo_typed.specs.View.{view_expr};
ghost use Rattle.limbo_refusals.specs.Refusals as refusals;
ghost use Rattle.limbo_refusals.specs.Refusals.{Refuses, NoneIs};
ghost use Rattle.limbo_things.specs.Things.{AValue, type_named};
ghost use Rattle.limbo_things.specs.ThingView.{view_thing, view_found};

use limbo_refusals::{ExprFault, clash_of};
use limbo_typed::{Printed, TExpr};
use limbo_types::{Ty, copy};
use std::alloc::{AllocError, AllocFailed, Global};

/// What a name, `base->name` or `base.name` is.
#[derive(Drop)]
pub enum Thing {
    Value(Box<TExpr>),
    /// The name of a type.
    Type(Box<Ty>),
    /// The name of a variant of an adt.
    Variant {
        adt: u32,
        variant: u32,
    },
    /// A function of the module, by its name.
    Function(u32),
    /// A function of an adt, with the object before the `.`, where there is one.
    Method {
        function: u32,
        object: Option<Box<TExpr>>,
    },
    /// A function of a module's type, through a value of the module.
    Member {
        instance: Box<TExpr>,
        interface: u32,
        function: u32,
    },
    /// `print`, `fprint` or `sprint`, through a value of `Sys`.
    Print {
        printed: Printed,
        instance: Box<TExpr>,
    },
    Exception(u32),
}

/// Why a name is nothing in an expression.
#[derive(Clone, Copy, PartialEq, Eq, Debug)]
pub enum NameFault {
    /// Want of memory.
    NoMemory,
    /// Refusal 42: the name isn't seen where it stands.
    Unknown,
    /// Refusal 50: the name is seen, and is nothing here.
    Nothing,
}

impl From<AllocError> for NameFault {
    ghost use Rattle.std.specs.Prelude.{◌≡◌};
    ghost use Rattle.limbo_things.specs.declared.thing.NameFault.TheVariants.{NoMemory};

    ghost from_gives = { λ _ e. e ≡ NoMemory };

    fn from(_error: AllocError) -> NameFault {
        NameFault::NoMemory
    }
}

impl<T: Drop> From<AllocFailed<T>> for NameFault {
    ghost use Rattle.std.specs.Prelude.{◌≡◌};
    ghost use Rattle.limbo_things.specs.declared.thing.NameFault.TheVariants.{NoMemory};

    ghost from_gives = { λ _ e. e ≡ NoMemory };

    fn from(_error: AllocFailed<T>) -> NameFault {
        NameFault::NoMemory
    }
}

/// A thing in memory of its own.
///
/// # Errors
/// Want of memory.
pub(crate) fn some(alloc: Global, thing: Thing) -> Result<Option<Box<Thing>>, AllocError>
    ensures { IfOk result (λ o. view_found o ≡ Some (view_thing thing)) }
{
    Ok(Some(Box::new(alloc, thing)?))
}

/// The type of a value, and the type that a name is. Nothing else has one.
///
/// # Errors
/// Want of memory.
#[tactic(auto, using(limbo_types::proofs::View::the_types, crate::proofs::Forms::type_is))]
pub(crate) fn type_named(alloc: Global, thing: &Thing) -> Result<Ty, AllocError>
    ensures { IfOk result (λ t. view_ty t ≡ type_named (view_thing thing.now)) }
{
    match thing {
        Thing::Value(e) => copy(alloc, &e.ty),
        Thing::Type(t) => copy(alloc, t),
        _ => Ok(Ty::Nothing),
    }
}

/// What is found, or the refusal of a type.
///
/// # Errors
/// Refusal 50, where nothing is found, and want of memory.
pub(crate) fn or_clash(
    alloc: Global,
    found: Option<Box<Thing>>,
    t: &Ty,
) -> Result<Box<Thing>, ExprFault>
    ensures found { IfOk result (λ thing. found ≡ Some thing) }
    ensures refused { IfErr result (λ f. Refuses f (λ r. (r ≡ refusals.Clash (view_ty t.now) (view_ty t.now)) × (found ≡ None))) }
{
    match found {
        Some(thing) => Ok(thing),
        None => Err(clash_of(alloc, t, t)),
    }
}

/// The value that a thing is.
///
/// # Errors
/// Refusal 50, with the type that it names, where it is none, and want of memory.
#[tactic(auto, using(limbo_types::proofs::View::the_types))]
pub fn value(alloc: Global, thing: Box<Thing>) -> Result<Box<TExpr>, ExprFault>
    // It is the value.
    ensures typed { IfOk result (λ e. view_thing thing.value ≡ AValue (view_expr e.value)) }
    // Where it is refused, it is none.
    ensures refused { IfErr result (λ f. Refuses f (λ r.
        (r ≡ refusals.Clash (type_named (view_thing thing.value)) (type_named (view_thing thing.value)))
        × NoneIs (λ e. view_thing thing.value ≡ AValue e))) }
{
    match Box::into_inner(thing) {
        Thing::Value(e) => Ok(e),
        Thing::Type(t) => Err(clash_of(alloc, &t, &t)),
        _ => Err(clash_of(alloc, &Ty::Nothing, &Ty::Nothing)),
    }
}
