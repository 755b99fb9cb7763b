//! Want of memory.

ghost use Rattle.std.specs.Prelude.{◌≡◌, IfOk, IfErr};
ghost use Rattle.limbo_causes.specs.declared.fault.Cause.TheVariants.{NoMemory};
ghost use Rattle.limbo_stmt_values.specs.declared.fault.Why.TheVariants.{Part};

use limbo_causes::TypingFault;
use limbo_stmt_values::{StmtFault, part_fault};
use limbo_typed::TStmt;
use std::alloc::Global;

/// Want of memory, which has no place.
pub(crate) fn no_memory() -> StmtFault
    ensures { result.why ≡ Part NoMemory }
{
    part_fault(TypingFault::no_memory())
}

/// A typed statement in a box.
pub(crate) fn boxed(alloc: Global, s: TStmt) -> Result<Box<TStmt>, StmtFault>
    ensures same { IfOk result (λ b. b.value ≡ s) }
    ensures refused { IfErr result (λ f. f.why ≡ Part NoMemory) }
{
    match Box::new(alloc, s) {
        Ok(b) => Ok(b),
        Err(_) => Err(no_memory()),
    }
}
