//! Operands and conditions, by the forms that have code of their own.

ghost use Rattle.std.specs.Prelude.{◌≡◌, ◌+◌, ◌<◌, ◌^◌};
ghost use Rattle.limbo_typed.specs.View.{view_exprs};
ghost use Rattle.typed_meaning.specs.Trees.{Apply};
ghost use Rattle.typed_meaning.specs.Program as program;
ghost use Rattle.slot_writing.specs.Conditions as conditions;
ghost use Rattle.slot_writing.specs.Conditions.{AreOperands, IsCondition};
ghost use Rattle.slot_writing.specs.Terms.{view_term};

use crate::terms::Term;
use limbo_typed::{Connective, Operation, TExpr};
use limbo_values::{Comparison, Kind};

/// What an operation has code for: one operand, or two.
#[derive(Clone, Copy)]
pub(crate) enum Operands<'a> {
    One(&'a TExpr),
    Two(&'a TExpr, &'a TExpr),
    Other,
}

/// What a condition is.
#[derive(Clone, Copy)]
pub(crate) enum Condition<'a> {
    /// `&&` or `||`
    Connected {
        connective: Connective,
        left: &'a TExpr,
        right: &'a TExpr,
    },
    /// A comparison of two numbers of a kind.
    Compared {
        comparison: Comparison,
        kind: Kind,
        left: &'a TExpr,
        right: &'a TExpr,
    },
    /// A value that is tested.
    Tested,
}

/// The operands of an operation.
pub(crate) fn operands_of<'a>(args: &'a [TExpr]) -> Operands<'a>
    ensures { AreOperands result (program.terms_of (view_exprs args.now)) }
{
    let Some((first, rest)) = args.split_first() else {
        return Operands::Other;
    };
    let Some((second, more)) = rest.split_first() else {
        return Operands::One(first);
    };
    match more.split_first() {
        None => Operands::Two(first, second),
        Some(_) => Operands::Other,
    }
}

// What an operation is as a condition.
#[tactic(auto, using(crate::proofs::Tested::other_tested))]
fn compared<'a>(operation: Operation, args: &'a [TExpr]) -> Condition<'a>
    ensures { IsCondition result (Apply operation (program.terms_of (view_exprs args.now))) }
{
    match operation {
        Operation::Compare { comparison, kind } => match operands_of(args) {
            Operands::Two(left, right) => Condition::Compared {
                comparison,
                kind,
                left,
                right,
            },
            Operands::One(_) => Condition::Tested,
            Operands::Other => Condition::Tested,
        },
        _ => Condition::Tested,
    }
}

/// What a term is as a condition.
pub(crate) fn condition_of(term: Term<'_>) -> Condition<'_>
    ensures { IsCondition result (view_term term.entry) }
{
    match term {
        Term::Lazy {
            connective,
            left,
            right,
        } => Condition::Connected {
            connective,
            left,
            right,
        },
        Term::Apply { operation, args } => compared(operation, args),
        _ => Condition::Tested,
    }
}

/// Whether a connective's left operand decides where it holds.
pub(crate) fn decides(connective: Connective) -> bool
    ensures { result ≡ conditions.decides connective }
{
    match connective {
        Connective::And => false,
        Connective::Or => true,
    }
}

/// How many instructions are passed where the left operand decides.
pub(crate) fn passed(connective: Connective, where_true: bool, right: usize, passes: usize) -> usize
    requires { right + passes < 2 ^ 64 }
    ensures { result ≡ conditions.passed connective where_true right passes }
{
    if where_true == decides(connective) {
        right + passes
    } else {
        right
    }
}
