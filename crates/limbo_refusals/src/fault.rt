//! Faults of expressions.

ghost use Rattle.std.specs.Prelude.{◌≡◌, IfOk};
ghost use Rattle.limbo_types.specs.View.{view_ty};
ghost use Rattle.limbo_refusals.specs.Refusals as refusals;
ghost use Rattle.limbo_refusals.specs.Refusals.{Refuses};

use limbo_types::{Ty, copy};
use std::alloc::{AllocError, AllocFailed, Global};

/// Two types that don't fit: those of two operands, or that of a value and the one that is asked for.
#[derive(Drop)]
pub struct Clash {
    pub left: Ty,
    pub right: Ty,
}

/// Why an expression is refused.
#[derive(Drop)]
pub enum ExprFault {
    /// Want of memory.
    NoMemory,
    /// Refusal 50: types don't fit.
    Clash(Box<Clash>),
    /// Refusal 51: what is stored into, or changed, is no place.
    NotPlace,
    /// Refusal 52: a store could make a heap value reach itself.
    CyclicStore,
    /// Refusal 53: a value of a module's type stands where none may.
    ModuleValue,
    /// Refusal 54: a format isn't a literal, is none, or doesn't fit its arguments.
    BadFormat,
    /// Refusal 55: a type takes more than 65,536 bytes.
    TypeTooLarge,
}

impl From<AllocError> for ExprFault {
    ghost use Rattle.std.specs.Prelude.{◌≡◌};
    ghost use Rattle.limbo_refusals.specs.declared.fault.ExprFault.TheVariants.{NoMemory};

    ghost from_gives = { λ _ e. e ≡ NoMemory };

    fn from(_error: AllocError) -> ExprFault {
        ExprFault::NoMemory
    }
}

impl<T: Drop> From<AllocFailed<T>> for ExprFault {
    ghost use Rattle.std.specs.Prelude.{◌≡◌};
    ghost use Rattle.limbo_refusals.specs.declared.fault.ExprFault.TheVariants.{NoMemory};

    ghost from_gives = { λ _ e. e ≡ NoMemory };

    fn from(_error: AllocFailed<T>) -> ExprFault {
        ExprFault::NoMemory
    }
}

// The two types, in memory of their own.
fn both(alloc: Global, left: &Ty, right: &Ty) -> Result<Box<Clash>, AllocError>
    ensures left { IfOk result (λ c. view_ty c.value.left ≡ view_ty left.now) }
    ensures right { IfOk result (λ c. view_ty c.value.right ≡ view_ty right.now) }
{
    let left = copy(alloc, left)?;
    let right = copy(alloc, right)?;
    Ok(Box::new(alloc, Clash { left, right })?)
}

/// The refusal of two types, or want of memory.
pub fn clash_of(alloc: Global, left: &Ty, right: &Ty) -> ExprFault
    ensures { Refuses result (λ r. r ≡ refusals.Clash (view_ty left.now) (view_ty right.now)) }
{
    match both(alloc, left, right) {
        Ok(types) => ExprFault::Clash(types),
        Err(_) => ExprFault::NoMemory,
    }
}

impl ExprFault {
    /// The refusal's number; none for want of memory.
    pub fn number(&self) -> Option<u32>
        ensures { result ≡ refusals.number self.now }
    {
        match self {
            ExprFault::NoMemory => None,
            ExprFault::Clash(_) => Some(50),
            ExprFault::NotPlace => Some(51),
            ExprFault::CyclicStore => Some(52),
            ExprFault::ModuleValue => Some(53),
            ExprFault::BadFormat => Some(54),
            ExprFault::TypeTooLarge => Some(55),
        }
    }
}
