//! What operations give of constants.

ghost use Rattle.std.specs.Prelude.{◌≡◌, IfOk, option_map, length, pos};
ghost use Rattle.std.specs.Result.{result_ok};
ghost use Rattle.limbo_values.specs.declared.number.Kind.TheVariants as kinds;
ghost use Rattle.limbo_values.specs.Numbers.{wrapped, kind_of, value_of};
ghost use Rattle.limbo_values.specs.Operators as values;
ghost use Rattle.limbo_values.specs.Texts.{joined};
ghost use Rattle.limbo_folding.specs.Folding as folding;

use crate::outcome::{Outcome, decision, number, settled};
use inf_text::Text;
use limbo_typed::{Constant, Operation, Sequence};
use limbo_values::{
    JoinFault, Kind, Number, Operator, Shift, Unary, alter, apply, compare, compare_texts, deny,
    int, join, shift,
};
use std::alloc::{AllocError, Global};

/// Whether an operation of constants is constant.
pub(crate) fn folds(operation: Operation) -> bool
    ensures { result ≡ folding.folds operation }
{
    match operation {
        Operation::Arithmetic { .. } => true,
        Operation::Shift { .. } => true,
        Operation::Alter { unary, .. } => !matches!(unary, Unary::Increment | Unary::Decrement),
        Operation::Compare { .. } => true,
        Operation::CompareChars(_) => true,
        Operation::Not => true,
        Operation::Convert { .. } => true,
        Operation::Join => true,
        Operation::Length(of) => matches!(of, Sequence::Chars),
        _ => false,
    }
}

// What is left of an integer as a number of a kind.
fn of_kind(kind: Kind, n: i64) -> Number
    ensures kind { kind_of result ≡ kind }
    ensures value { value_of result ≡ wrapped kind n }
{
    Number::Big(n).to_kind(kind)
}

// `+ - * / % & ^ |`: none where it raises.
fn arithmetic(operator: Operator, kind: Kind, a: i64, b: i64) -> Option<i64>
    ensures { result ≡ result_ok (values.applied kind operator (wrapped kind a) (wrapped kind b)) }
{
    match apply(operator, of_kind(kind, a), of_kind(kind, b)) {
        Ok(number) => Some(number.value()),
        Err(_) => None,
    }
}

// `<<` and `>>`
fn shifted(by: Shift, kind: Kind, a: i64, count: i64) -> i64
    ensures { result ≡ values.shifted kind by (wrapped kind a) (wrapped kinds.Int count) }
{
    shift(by, of_kind(kind, a), int::wrap(count)).value()
}

// `+ - ~`
fn altered(by: Unary, kind: Kind, a: i64) -> i64
    ensures { result ≡ values.altered kind by (wrapped kind a) }
{
    alter(by, of_kind(kind, a)).value()
}

// `s + t`: none where they are too long.
fn joined_text(alloc: Global, s: &Text, t: &Text) -> Result<Option<Text>, AllocError>
    ensures { IfOk result (λ text. text ≡ result_ok (joined s.now t.now)) }
{
    match join(alloc, s.as_slice(), t.as_slice()) {
        Ok(text) => Ok(Some(text)),
        Err(JoinFault::Raises(_)) => Ok(None),
        Err(JoinFault::NoMemory) => Err(AllocError),
    }
}

// What an operation gives of one number.
fn of_number(operation: Operation, a: i64) -> Option<Outcome>
    ensures { result ≡ folding.of_number operation a }
{
    match operation {
        Operation::Alter { unary, kind } => Some(number(altered(unary, kind, a))),
        Operation::Not => Some(number(i64::from(deny(int::wrap(a))))),
        Operation::Convert { to, .. } => Some(number(of_kind(to, a).value())),
        _ => None,
    }
}

// What an operation gives of one string.
fn of_text(operation: Operation, s: &[char]) -> Option<Outcome>
    ensures { result ≡ folding.of_text operation s.now }
{
    match operation {
        Operation::Length(_) => Some(number(i64::from(int::wrap(s.len() as i64)))),
        _ => None,
    }
}

// What an operation gives of two numbers.
fn of_numbers(operation: Operation, a: i64, b: i64) -> Option<Outcome>
    ensures { result ≡ folding.of_numbers operation a b }
{
    match operation {
        Operation::Arithmetic { operator, kind } => match arithmetic(operator, kind, a, b) {
            Some(n) => Some(number(n)),
            None => Some(Outcome::Raises),
        },
        Operation::Shift { shift: by, kind } => Some(number(shifted(by, kind, a, b))),
        Operation::Compare { comparison, .. } => {
            let is_so = compare(comparison, Number::Big(a), Number::Big(b));
            Some(decision(is_so))
        }
        _ => None,
    }
}

// What an operation gives of two strings.
fn of_texts(
    alloc: Global,
    operation: Operation,
    s: &Text,
    t: &Text,
) -> Result<Option<Outcome>, AllocError>
    ensures { IfOk result (λ o. o ≡ folding.of_texts operation s.now t.now) }
{
    match operation {
        Operation::CompareChars(by) => {
            let is_so = compare_texts(by, s.as_slice(), t.as_slice());
            Ok(Some(decision(is_so)))
        }
        Operation::Join => match joined_text(alloc, s, t)? {
            Some(text) => Ok(Some(Outcome::Gives(Constant::Chars(text)))),
            None => Ok(Some(Outcome::Raises)),
        },
        _ => Ok(None),
    }
}

// What an operation comes to of an operand that is constant.
fn of_one(operation: Operation, operand: &Outcome) -> Option<Outcome>
    ensures { result ≡ folding.of_one operation operand.now }
{
    match operand {
        Outcome::Gives(Constant::Number(a)) => of_number(operation, *a),
        Outcome::Gives(Constant::Chars(s)) => of_text(operation, s.as_slice()),
        Outcome::Raises => Some(Outcome::Raises),
    }
}

// What an operation gives of two constants.
fn of_constants(
    alloc: Global,
    operation: Operation,
    left: &Constant,
    right: &Constant,
) -> Result<Option<Outcome>, AllocError>
    ensures { IfOk result (λ o. o ≡ folding.of_constants operation left.now right.now) }
{
    match (left, right) {
        (Constant::Number(a), Constant::Number(b)) => Ok(of_numbers(operation, *a, *b)),
        (Constant::Chars(s), Constant::Chars(t)) => of_texts(alloc, operation, s, t),
        _ => Ok(None),
    }
}

// What an operation comes to of two operands that are constant.
fn of_two(
    alloc: Global,
    operation: Operation,
    left: &Outcome,
    right: &Outcome,
) -> Result<Option<Outcome>, AllocError>
    ensures { IfOk result (λ o. o ≡ folding.of_two operation left.now right.now) }
{
    match (left, right) {
        (Outcome::Gives(a), Outcome::Gives(b)) => of_constants(alloc, operation, a, b),
        _ => Ok(Some(Outcome::Raises)),
    }
}

/// What an operation comes to of an operand, if that is constant.
pub(crate) fn with_one(operation: Operation, operand: Option<Outcome>) -> Option<Outcome>
    ensures { result ≡ folding.with_one operation operand }
{
    match operand {
        Some(operand) => of_one(operation, &operand),
        None => None,
    }
}

/// What an operation comes to of two operands, if these are constant.
///
/// # Errors
/// Want of memory.
pub(crate) fn with_two(
    alloc: Global,
    operation: Operation,
    left: Option<Outcome>,
    right: Option<Outcome>,
) -> Result<Option<Outcome>, AllocError>
    ensures { IfOk result (λ o. o ≡ folding.with_two operation left right) }
{
    match left {
        Some(left) => match right {
            Some(right) => of_two(alloc, operation, &left, &right),
            None => Ok(None),
        },
        None => Ok(None),
    }
}
