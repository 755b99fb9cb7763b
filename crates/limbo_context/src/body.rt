//! The scopes and variables of a function's body.

ghost use Rattle.std.specs.Prelude.{◌≡◌, length, None, IfOk, IfErr, IsSome};
ghost use Rattle.limbo_types.specs.View.{view_ty};
ghost use Rattle.limbo_scope.specs.Scopes as scopes;
ghost use Rattle.limbo_context.specs.Context as context;
ghost use Rattle.limbo_context.specs.View.{view_body};
ghost use Rattle.limbo_context.specs.declared.body.BodyFault.TheVariants.{Twice};

use inf_text::Text;
use limbo_scope::{Meaning, ScopeFault, Scopes};
use limbo_typed::TVar;
use limbo_types::Ty;
use std::alloc::{AllocError, AllocFailed};

/// What names mean where a body has come to, and the variables of the function so far, its parameters first.
#[derive(Drop)]
pub struct Body {
    pub scopes: Scopes,
    pub variables: Vec<TVar>,
}

/// Why a variable isn't declared.
#[derive(Clone, Copy, PartialEq, Eq, Debug)]
pub enum BodyFault {
    /// Want of memory, or of numbers.
    NoMemory,
    /// Refusal 41: the innermost scope declares the name already.
    Twice,
}

impl From<AllocError> for BodyFault {
    ghost use Rattle.std.specs.Prelude.{◌≡◌};
    ghost use Rattle.limbo_context.specs.declared.body.BodyFault.TheVariants.{NoMemory};

    ghost from_gives = { λ _ e. e ≡ NoMemory };

    fn from(_error: AllocError) -> BodyFault {
        BodyFault::NoMemory
    }
}

impl<T: Drop> From<AllocFailed<T>> for BodyFault {
    ghost use Rattle.std.specs.Prelude.{◌≡◌};
    ghost use Rattle.limbo_context.specs.declared.body.BodyFault.TheVariants.{NoMemory};

    ghost from_gives = { λ _ e. e ≡ NoMemory };

    fn from(_error: AllocFailed<T>) -> BodyFault {
        BodyFault::NoMemory
    }
}

impl From<ScopeFault> for BodyFault {
    ghost use Rattle.std.specs.Prelude.{◌≡◌};
    ghost use Rattle.limbo_context.specs.Context.{of_scope};

    ghost from_gives = { λ e f. f ≡ of_scope e };

    fn from(error: ScopeFault) -> BodyFault {
        match error {
            ScopeFault::NoMemory => BodyFault::NoMemory,
            ScopeFault::Twice => BodyFault::Twice,
        }
    }
}

impl Body {
    /// Declares a variable of a type in the innermost scope, and answers its number.
    ///
    /// # Errors
    /// Want of memory or of numbers; `Twice` only where the innermost scope declares the name already, and there it is declared no more.
    pub fn declare(&mut self, name: &Text, ty: Ty) -> Result<u32, BodyFault>
        ensures numbered { IfOk result (λ n. n ≡ length self.old.variables.items) }
        ensures declared { IfOk result (λ _. view_body self.new ≡ context.with_variable name.now (view_ty ty) (view_body self.old)) }
        ensures once { IfOk result (λ _. scopes.declared_here name.now self.old.scopes ≡ None) }
        ensures twice { IfErr result (λ e. e ≡ Twice → IsSome (scopes.declared_here name.now self.old.scopes)) }
    {
        let Ok(number) = u32::try_from(self.variables.len()) else {
            return Err(BodyFault::NoMemory);
        };
        self.scopes.declare(name, Meaning::Variable(number))?;
        let name = name.clone()?;
        self.variables.push(TVar { name, ty })?;
        Ok(number)
    }
}
