//! What a definition writes before its block.

ghost use Rattle.std.specs.Prelude.{◌≡◌, IfOk, IfErr};
ghost use Rattle.limbo_tree.specs.View as source;
ghost use Rattle.limbo_types.specs.View.{view_fn};
ghost use Rattle.limbo_declarations.specs.Scopes.{FnIsOnce};
ghost use Rattle.limbo_causes.specs.Causes.{Twice, nothing};
ghost use Rattle.limbo_context.specs.View.{view_context, view_body};
ghost use Rattle.limbo_stmt_values.specs.limbo_local.Local.{IsHeader};
ghost use Rattle.limbo_stmt_values.specs.limbo_stating.Reasons.{ByPart};
ghost use Rattle.limbo_stmt_values.specs.Whys.{FailsFor};
ghost use Rattle.limbo_functions.specs.Headings.{FailsHeading};

use crate::faults::no_memory;
use crate::sameness::is_same;
use inf_text::Span;
use limbo_causes::{Cause, TypingFault};
use limbo_context::{Body, Context};
use limbo_declarations::{OnceFault, fn_once};
use limbo_refusals::clash_of;
use limbo_stmt_values::{StmtFault, Why, part_fault};
use limbo_stmts::limbo_members::header;
use limbo_tree::{FnType, Function};
use limbo_types::{FnTy, Ty};
use std::alloc::Global;

/// That no two parameters of a definition have one name.
///
/// # Errors
/// 41 where two have.
pub(crate) fn names_once(alloc: Global, written: &FnType) -> Result<(), StmtFault>
    ensures once { IfOk result (λ _. FnIsOnce (source.view_fn written.now)) }
    ensures refused { IfErr result (λ f. FailsFor f.why
        (λ k. (k ≡ ByPart Twice) × (FnIsOnce (source.view_fn written.now) → ⊥))) }
{
    match fn_once(alloc, written) {
        Ok(()) => Ok(()),
        Err(OnceFault::NoMemory) => Err(no_memory()),
        Err(OnceFault::Twice { at }) => Err(StmtFault {
            why: Why::Part(Cause::Twice),
            at,
        }),
    }
}

// The types of a definition are others than the declared ones.
#[tactic(auto, using(limbo_types::proofs::View::the_types))]
fn unlike(alloc: Global, at: Span) -> StmtFault
    ensures { FailsFor result.why (λ k. k ≡ ByPart nothing) }
{
    part_fault(TypingFault::refused(clash_of(alloc, &Ty::Nothing, &Ty::Nothing), at))
}

/// That a definition takes and answers what the function is declared with.
///
/// # Errors
/// Those of the types that it writes; 50 where these are others than the declared ones.
pub(crate) fn as_declared(
    alloc: Global,
    context: &Context,
    body: &Body,
    of: &FnTy,
    function: &Function,
) -> Result<(), StmtFault>
    ensures header { IfOk result (λ _. IsHeader (view_context context.now) (view_body body.now)
        (source.view_fn function.now.of) (view_fn of.now)) }
    ensures refused { IfErr result (λ f. FailsFor f.why (FailsHeading (view_context context.now) (view_body body.now)
        (source.view_fn function.now.of) (view_fn of.now))) }
{
    match header(alloc, context, body, &function.of) {
        Err(fault) => Err(part_fault(fault)),
        Ok(written) => {
            if is_same(&written, of) {
                Ok(())
            } else {
                Err(unlike(alloc, function.name.span))
            }
        }
    }
}
