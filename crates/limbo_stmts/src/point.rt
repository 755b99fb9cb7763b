//! Where the checking has come to.

ghost use Rattle.std.specs.Prelude.{◌≡◌, IfOk, IfErr};
ghost use Rattle.limbo_causes.specs.declared.fault.Cause.TheVariants.{NoMemory};
ghost use Rattle.limbo_stmt_values.specs.declared.fault.Why.TheVariants.{Part};
ghost use Rattle.limbo_stmt_values.specs.limbo_local.Points as points;
ghost use Rattle.limbo_stmt_values.specs.limbo_stating.Stating as stating;
ghost use Rattle.limbo_stmts.specs.View.{view_point};

use crate::faults::no_memory;
use limbo_context::{Body, Context};
use limbo_stmt_values::StmtFault;

/// Where the checking of a function's body has come to.
#[derive(Drop)]
pub struct Point {
    /// The lists that names lead to, which grow by what bodies declare.
    pub context: Context,
    /// What names mean there, and the variables so far.
    pub body: Body,
    /// How many handlers the function has so far.
    pub catches: u32,
}

impl Point {
    /// Begins a scope.
    pub(crate) fn enter(&mut self) -> Result<(), StmtFault>
        ensures entered { IfOk result (λ _. view_point self.new ≡ points.enter (view_point self.old)) }
        ensures refused { IfErr result (λ f. f.why ≡ Part NoMemory) }
    {
        match self.body.scopes.enter() {
            Ok(()) => Ok(()),
            Err(_) => Err(no_memory()),
        }
    }

    /// Ends the innermost scope.
    pub(crate) fn leave(&mut self)
        ensures { view_point self.new ≡ points.leave (view_point self.old) }
    {
        let _was_inside = self.body.scopes.leave();
    }

    /// Makes a place for what a handler catches, and answers its number.
    pub(crate) fn add_catch(&mut self) -> Result<u32, StmtFault>
        ensures number { IfOk result (λ n. n ≡ self.old.catches) }
        ensures added { IfOk result (λ _. view_point self.new ≡ stating.with_catch (view_point self.old)) }
        ensures refused { IfErr result (λ f. f.why ≡ Part NoMemory) }
    {
        let number = self.catches;
        match number.checked_add(1) {
            Some(next) => {
                self.catches = next;
                Ok(number)
            }
            None => Err(no_memory()),
        }
    }
}
