//! Faults of statements where they stand.

ghost use Rattle.std.specs.Prelude.{◌≡◌};
ghost use Rattle.limbo_stmt_values.specs.declared.fault.Why.TheVariants.{Part};

use inf_text::Span;
use limbo_causes::{Cause, TypingFault};

/// Why a statement is none.
#[derive(Drop)]
pub enum Why {
    /// Refusals 41 to 43 and 50 to 55, and want of memory: a part fails, or doesn't fit.
    Part(Cause),
    /// Refusal 60: labels of a `case` overlap or aren't constant, or `*` stands twice.
    CaseOverlap,
    /// Refusal 61: an arm of an `alt` is neither a receive nor a send, or `*` stands twice.
    BadAlt,
    /// Refusal 62: a `pick` of what has no variants, an arm that names none, or one again, or `*` stands twice.
    BadPick,
    /// Refusal 63: a path of a function with an answer ends without one.
    NoReturn,
    /// Refusal 64: a `break` or `continue` outside of what it speaks of.
    BadLabel,
}

/// Why a statement is none, and where it fails.
#[derive(Drop)]
pub struct StmtFault {
    pub why: Why,
    /// Where the part stands that fails. A want of memory has no place.
    pub at: Span,
}

/// A part fails.
pub fn part_fault(fault: TypingFault) -> StmtFault
    ensures { result.why ≡ Part fault.cause }
{
    StmtFault {
        why: Why::Part(fault.cause),
        at: fault.at,
    }
}
