//! Which types values may have.

ghost use Rattle.std.specs.Prelude.{◌↔◌, IsTrue, length, IfOk, IfErr};
ghost use Rattle.limbo_types.specs.View.{view_ty};
ghost use Rattle.limbo_layout.specs.Adts.{Names};
ghost use Rattle.limbo_adts.specs.Table.{defs_of};
ghost use Rattle.limbo_refusals.specs.Refusals.{Refuses};
ghost use Rattle.limbo_allowed.specs.Allowed.{IsAllowed, IsUserModule, RefusesType};

use crate::holding::{holds_fd, holds_module, is_users, names};
use limbo_adts::Adts;
use limbo_layout::LayoutFault;
use limbo_refusals::ExprFault;
use limbo_types::Ty;
use std::alloc::Global;

/// Whether a type is a user's module type: any but that of `Sys`, whose number is told where there is one.
pub fn is_user_module(system: Option<u32>, t: &Ty) -> bool
    ensures { IsTrue result ↔ IsUserModule system (view_ty t.now) }
{
    is_users(system, t)
}

/// Whether each number in a type names an adt, a variant of it, or a module type.
pub fn is_named(adts: &Adts, t: &Ty) -> bool
    ensures { IsTrue result ↔ Names (defs_of adts.now) (length adts.now.modules) (view_ty t.now) }
{
    names(adts.defs(), adts.modules().len(), t)
}

/// Whether values may have a type, given the number of the module type of `Sys` and that of the adt `FD` of `Sys`, where they are there.
///
/// # Errors
/// Want of memory. 51 where it holds an `FD` as a value, 53 where a user's module type stands inside it, 55 where it takes more than
/// 65,536 bytes.
pub fn allow(
    alloc: Global,
    adts: &Adts,
    system: Option<u32>,
    fd: Option<u32>,
    t: &Ty,
) -> Result<(), ExprFault>
    ensures allowed { IfOk result (λ _. IsAllowed (defs_of adts.now) (length adts.now.modules) system fd (view_ty t.now)) }
    ensures refused { IfErr result (λ f. Refuses f (RefusesType (defs_of adts.now) (length adts.now.modules) system fd (view_ty t.now))) }
{
    if holds_fd(fd, t) {
        return Err(ExprFault::NotPlace);
    }
    if holds_module(system, t) {
        return Err(ExprFault::ModuleValue);
    }
    if !is_named(adts, t) {
        return Err(ExprFault::TypeTooLarge);
    }
    match adts.layout(alloc, t) {
        Ok(_) => Ok(()),
        Err(LayoutFault::TooLarge) => Err(ExprFault::TypeTooLarge),
        Err(LayoutFault::NoMemory) => Err(ExprFault::NoMemory),
    }
}
