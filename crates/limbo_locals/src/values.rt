//! Values that declarations give.

ghost use Rattle.std.specs.Prelude.{◌≡◌, IfOk, IfErr};
ghost use Rattle.limbo_types.specs.View.{view_ty};
ghost use Rattle.limbo_typed.specs.Sound.{type_of, IsSettled};
ghost use Rattle.limbo_typed.specs.Typed.{Empty};
ghost use Rattle.limbo_typed.specs.View.{view_expr, view_stmt};
ghost use Rattle.limbo_arguments.specs.Failing as arguments;
ghost use Rattle.limbo_standing.specs.Standing.{Settles};
ghost use Rattle.limbo_causes.specs.declared.fault.Cause.TheVariants.{NoMemory};
ghost use Rattle.limbo_causes.specs.Causes as causes;
ghost use Rattle.limbo_causes.specs.Causes.{FailsBy, ByRefusal};
ghost use Rattle.limbo_exprs.specs.limbo_value_forms.Forms.{itself};

use inf_text::Span;
use limbo_arguments::settle_or_clash;
use limbo_causes::{Cause, TypingFault};
use limbo_permits::is_settled;
use limbo_refusals::clash_of;
use limbo_typed::{TExpr, TStmt};
use limbo_types::Ty;
use std::alloc::Global;

/// A value where a type is asked for.
pub(crate) fn value_as(
    alloc: Global,
    mut x: Box<TExpr>,
    asked: &Ty,
    at: Span,
) -> Result<Box<TExpr>, TypingFault>
    ensures settled { IfOk result (λ y. Settles (view_ty asked.now) (view_expr x.value) (view_expr y.value)) }
    ensures refused { IfErr result (λ f. FailsBy f.cause
        (ByRefusal (arguments.FailsAt (view_ty asked.now) (view_expr x.value)))) }
{
    match settle_or_clash(alloc, &mut x, asked) {
        Ok(()) => Ok(x),
        Err(fault) => Err(TypingFault::refused(fault, at)),
    }
}

/// That no `nil` is open in a value.
pub(crate) fn settled(alloc: Global, x: &TExpr, at: Span) -> Result<(), TypingFault>
    ensures settled { IfOk result (λ _. IsSettled (type_of (view_expr x.now))) }
    ensures refused { IfErr result (λ f. FailsBy f.cause
        (λ k. (k ≡ causes.Refused (itself (view_expr x.now))) × (IsSettled (type_of (view_expr x.now)) → ⊥))) }
{
    if is_settled(x) {
        Ok(())
    } else {
        Err(TypingFault::refused(clash_of(alloc, &x.ty, &x.ty), at))
    }
}

/// The statement of a declaration that does nothing when it runs.
#[tactic(auto, using(limbo_typed::proofs::View::the_stmts))]
pub fn nothing_runs(alloc: Global) -> Result<Box<TStmt>, TypingFault>
    ensures empty { IfOk result (λ z. view_stmt z.value ≡ Empty) }
    ensures refused { IfErr result (λ f. f.cause ≡ NoMemory) }
{
    Ok(Box::new(alloc, TStmt::Empty)?)
}

/// A cause that isn't told.
pub(crate) fn untold(_cause: Cause) -> TypingFault
    ensures { result.cause ≡ NoMemory }
{
    TypingFault::no_memory()
}
