//! Want of memory.

ghost use Rattle.std.specs.Prelude.{◌≡◌};
ghost use Rattle.limbo_causes.specs.declared.fault.Cause.TheVariants.{NoMemory};
ghost use Rattle.limbo_stmt_values.specs.declared.fault.Why.TheVariants.{Part};

use limbo_causes::TypingFault;
use limbo_stmt_values::{StmtFault, part_fault};

/// Want of memory, which has no place.
pub(crate) fn no_memory() -> StmtFault
    ensures { result.why ≡ Part NoMemory }
{
    part_fault(TypingFault::no_memory())
}
