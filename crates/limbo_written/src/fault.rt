//! What is told of written types that mean none.

ghost use Rattle.std.specs.Prelude.{◌≡◌};
ghost use Rattle.limbo_types.specs.Types.{Nothing};
ghost use Rattle.limbo_refusals.specs.Refusals as refusals;
ghost use Rattle.limbo_refusals.specs.Refusals.{Refuses};
ghost use Rattle.limbo_causes.specs.Causes.{FailsBy};
ghost use Rattle.limbo_written.specs.Told.{IsCauseOf, place_in};

use inf_text::Span;
use limbo_body_types::WrittenFault;
use limbo_causes::{Cause, TypingFault};
use limbo_refusals::{ExprFault, clash_of};
use limbo_types::Ty;
use std::alloc::Global;

// The refusal of two types that nothing has.
#[tactic(auto, using(limbo_types::proofs::View::the_types))]
fn no_type(alloc: Global) -> ExprFault
    ensures { Refuses result (λ r. r ≡ refusals.Clash Nothing Nothing) }
{
    clash_of(alloc, &Ty::Nothing, &Ty::Nothing)
}

// The cause of a fault.
fn cause_of(alloc: Global, fault: WrittenFault) -> Cause
    ensures { FailsBy result (IsCauseOf fault) }
{
    match fault {
        WrittenFault::NoMemory => Cause::NoMemory,
        WrittenFault::Unknown { .. } => Cause::Unknown,
        WrittenFault::NotAType { .. } => Cause::Refused(no_type(alloc)),
    }
}

// Where a fault is: at a name in the type, or of the whole type.
fn place_of(fault: WrittenFault, whole: Span) -> Span
    ensures { result ≡ place_in fault whole }
{
    match fault {
        WrittenFault::NoMemory => whole,
        WrittenFault::Unknown { at } => at,
        WrittenFault::NotAType { at } => at,
    }
}

/// What is told of a fault in a type.
pub(crate) fn told(alloc: Global, fault: WrittenFault, whole: Span) -> TypingFault
    ensures cause { FailsBy result.cause (IsCauseOf fault) }
    ensures place { result.at ≡ place_in fault whole }
{
    TypingFault {
        cause: cause_of(alloc, fault),
        at: place_of(fault, whole),
    }
}
