//! Tests of types.

ghost use Rattle.std.specs.Prelude.{◌≡◌, length, slice_get};
ghost use Rattle.limbo_types.specs.View.{view_ty, view_tys};
ghost use Rattle.limbo_layout.specs.View.{view_defs};
ghost use Rattle.limbo_allowed.specs.Choosing as choosing;

use limbo_layout::AdtDef;
use limbo_types::Ty;

// Whether there is a number, and it is this one.
fn is_number(of: Option<u32>, number: u32) -> bool
    ensures { result ≡ choosing.is_number of number }
{
    match of {
        Some(it) => it == number,
        None => false,
    }
}

/// Whether a type is a user's module type.
#[tactic(auto, using(limbo_types::proofs::View::the_types, crate::proofs::Forms::no_user_module))]
pub(crate) fn is_users(system: Option<u32>, t: &Ty) -> bool
    ensures { result ≡ choosing.is_user_module system (view_ty t.now) }
{
    match t {
        Ty::Module(number) => !is_number(system, *number),
        _ => false,
    }
}

// Whether a type is a user's module type, or one stands in it.
#[cycle(modules)]
fn has_module(system: Option<u32>, t: &Ty) -> bool
    ensures { result ≡ choosing.has_module system (view_ty t.now) }
{
    match t {
        Ty::Array(item) => has_module(system, item),
        Ty::List(item) => has_module(system, item),
        Ty::Chan(item) => has_module(system, item),
        Ty::Tuple(parts) => some_has_module(system, parts),
        _ => is_users(system, t),
    }
}

#[cycle(modules)]
fn some_has_module(system: Option<u32>, ts: &[Ty]) -> bool
    ensures { result ≡ choosing.some_has_module system (view_tys ts.now) }
{
    for t in ts {
        if has_module(system, t) {
            return true;
        }
    }
    false
}

/// Whether a user's module type stands inside a type.
#[tactic(auto, using(limbo_types::proofs::View::the_types, crate::proofs::Forms::holds_no_module))]
pub(crate) fn holds_module(system: Option<u32>, t: &Ty) -> bool
    ensures { result ≡ choosing.holds_module system (view_ty t.now) }
{
    match t {
        Ty::Array(item) => has_module(system, item),
        Ty::List(item) => has_module(system, item),
        Ty::Chan(item) => has_module(system, item),
        Ty::Tuple(parts) => some_has_module(system, parts),
        _ => false,
    }
}

/// Whether a type is the adt of this number, or holds it as a value.
#[cycle(files)]
pub(crate) fn holds_fd(fd: Option<u32>, t: &Ty) -> bool
    ensures { result ≡ choosing.holds_fd fd (view_ty t.now) }
{
    match t {
        Ty::Array(item) => holds_fd(fd, item),
        Ty::List(item) => holds_fd(fd, item),
        Ty::Chan(item) => holds_fd(fd, item),
        Ty::Tuple(parts) => some_holds_fd(fd, parts),
        Ty::Adt(number) => is_number(fd, *number),
        _ => false,
    }
}

#[cycle(files)]
fn some_holds_fd(fd: Option<u32>, ts: &[Ty]) -> bool
    ensures { result ≡ choosing.some_holds_fd fd (view_tys ts.now) }
{
    for t in ts {
        if holds_fd(fd, t) {
            return true;
        }
    }
    false
}

// Whether there is an adt of this number, with this variant.
fn has_variant(defs: &[AdtDef], adt: u32, variant: u32) -> bool
    ensures { result ≡ choosing.has_variant (slice_get (view_defs defs.now) adt) variant }
{
    match defs.get(adt as usize) {
        Some(def) => (variant as usize) < def.picks.len(),
        None => false,
    }
}

/// Whether each number in a type names an adt, a variant of it, or one of so many modules.
#[cycle(naming)]
pub(crate) fn names(defs: &[AdtDef], modules: usize, t: &Ty) -> bool
    ensures { result ≡ choosing.is_named (view_defs defs.now) modules (view_ty t.now) }
{
    match t {
        Ty::Array(item) => names(defs, modules, item),
        Ty::List(item) => names(defs, modules, item),
        Ty::Chan(item) => names(defs, modules, item),
        Ty::Tuple(parts) => all_name(defs, modules, parts),
        Ty::Adt(number) => (*number as usize) < defs.len(),
        Ty::RefAdt(number) => (*number as usize) < defs.len(),
        Ty::RefPick { adt, variant } => has_variant(defs, *adt, *variant),
        Ty::Module(number) => (*number as usize) < modules,
        _ => true,
    }
}

#[cycle(naming)]
fn all_name(defs: &[AdtDef], modules: usize, ts: &[Ty]) -> bool
    ensures { result ≡ choosing.all_named (view_defs defs.now) modules (view_tys ts.now) }
{
    for t in ts {
        if !names(defs, modules, t) {
            return false;
        }
    }
    true
}
