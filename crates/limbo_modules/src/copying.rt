//! Copies of what is known.

ghost use Rattle.std.specs.Prelude.{◌≡◌, map, IfOk};
ghost use Rattle.limbo_context.specs.View.{view_callee};
ghost use Rattle.limbo_functions.specs.View.{definitions_of};
ghost use Rattle.limbo_modules.specs.Found.{view_found};

use crate::finding::Found;
use limbo_context::Callee;
use limbo_tree::Function;
use limbo_types::copy_fn;
use std::alloc::{AllocError, Global};

// A function of the module once more.
fn copy_callee(alloc: Global, callee: &Callee) -> Result<Callee, AllocError>
    ensures { IfOk result (λ c. view_callee c ≡ view_callee callee.now) }
{
    Ok(Callee {
        of: copy_fn(alloc, &callee.of)?,
        owner: callee.owner,
        takes_self: callee.takes_self,
    })
}

/// Functions of the module once more.
///
/// # Errors
/// Want of memory.
pub(crate) fn copy_callees(alloc: Global, callees: &[Callee]) -> Result<Vec<Callee>, AllocError>
    ensures { IfOk result (λ cs. map view_callee cs.items ≡ map view_callee callees.now) }
{
    let mut copies = Vec::with_capacity(alloc, callees.len())?;
    for callee in callees {
        copies.push(copy_callee(alloc, callee)?)?;
    }
    Ok(copies)
}

/// The functions that definitions define.
///
/// # Errors
/// Want of memory.
pub(crate) fn functions_of<'a>(
    alloc: Global,
    found: &[Found<'a>],
) -> Result<Vec<&'a Function>, AllocError>
    ensures { IfOk result (λ fs. definitions_of fs.items ≡ view_found found.now) }
{
    let mut functions = Vec::with_capacity(alloc, found.len())?;
    for definition in found {
        functions.push(definition.function)?;
    }
    Ok(functions)
}
