//! What constant expressions come to.

ghost use Rattle.std.specs.Prelude.{◌≡◌};
ghost use Rattle.limbo_folding.specs.Folding as folding;

use limbo_typed::{Connective, Constant};
use limbo_values::int;

/// What an expression comes to that is constant.
#[derive(Drop)]
pub(crate) enum Outcome {
    /// It gives a constant.
    Gives(Constant),
    /// Its evaluation would raise an exception.
    Raises,
}

/// What an operation comes to, of which the value is none where it raises.
pub(crate) fn settled(value: Option<Constant>) -> Outcome
    ensures { result ≡ folding.settled value }
{
    match value {
        Some(value) => Outcome::Gives(value),
        None => Outcome::Raises,
    }
}

/// An integer.
pub(crate) fn number(n: i64) -> Outcome
    ensures { result ≡ folding.number n }
{
    Outcome::Gives(Constant::Number(n))
}

/// 1 or 0.
pub(crate) fn decision(is_so: bool) -> Outcome
    ensures { result ≡ folding.decision is_so }
{
    number(i64::from(int::truth(is_so)))
}

// Whether a condition holds. One that raises says nothing.
fn condition(of: &Outcome) -> Option<bool>
    ensures { result ≡ folding.condition of.now }
{
    match of {
        Outcome::Gives(Constant::Number(n)) => Some(*n != 0),
        _ => None,
    }
}

// Whether `&&` or `||` holds: the right condition counts only where the left one doesn't decide.
fn decided(connective: Connective, left: Option<bool>, right: Option<bool>) -> Option<bool>
    ensures { result ≡ folding.decided connective left right }
{
    match (connective, left?) {
        (Connective::And, true) => right,
        (Connective::And, false) => Some(false),
        (Connective::Or, true) => Some(true),
        (Connective::Or, false) => right,
    }
}

// What `&&` and `||` come to of operands that are constant.
fn lazily(connective: Connective, left: &Outcome, right: &Outcome) -> Outcome
    ensures { result ≡ folding.lazily connective left.now right.now }
{
    match decided(connective, condition(left), condition(right)) {
        Some(is_so) => decision(is_so),
        None => Outcome::Raises,
    }
}

/// What `&&` and `||` come to, if their operands are constant.
pub(crate) fn with_lazy(
    connective: Connective,
    left: Option<Outcome>,
    right: Option<Outcome>,
) -> Option<Outcome>
    ensures { result ≡ folding.with_lazy connective left right }
{
    match left {
        Some(left) => match right {
            Some(right) => Some(lazily(connective, &left, &right)),
            None => None,
        },
        None => None,
    }
}
