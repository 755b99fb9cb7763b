//! Operations on bigs, which are 64 bits, signed.

ghost use Rattle.std.specs.Prelude.{◌≡◌};
ghost use Rattle.limbo_values.specs.declared.number.Kind.TheVariants.{Big};
ghost use Rattle.limbo_values.specs.Operators.{applied, shifted, altered};
ghost use Rattle.limbo_values.specs.Conversions.{number_read};

use crate::operator::{Operator, Shift, Unary};
use crate::raised::Raised;
use inf_text::Text;

/// `big s` of a string.
pub fn read(text: &Text) -> i64
    ensures { result ≡ number_read Big text.now }
{
    text.read_decimal()
}

/// `a / b`, rounded toward zero.
///
/// # Errors
/// `ZeroDivide` exactly where b is 0.
pub fn divide(a: i64, b: i64) -> Result<i64, Raised>
    ensures { result ≡ applied Big Operator.Divide a b }
{
    if b == 0 {
        return Err(Raised::ZeroDivide);
    }
    Ok(a.wrapping_div(b))
}

/// `a % b`, with the sign of a.
///
/// # Errors
/// `ZeroDivide` exactly where b is 0.
pub fn remainder(a: i64, b: i64) -> Result<i64, Raised>
    ensures { result ≡ applied Big Operator.Remainder a b }
{
    if b == 0 {
        return Err(Raised::ZeroDivide);
    }
    Ok(a.wrapping_rem(b))
}

/// `a << count`, where the count is taken modulo 64.
pub fn shift_left(a: i64, count: i32) -> i64
    ensures { result ≡ shifted Big Shift.Left a count }
{
    a.wrapping_shl(count.cast_unsigned())
}

/// `a >> count`, which keeps the sign. The count is taken modulo 64.
pub fn shift_right(a: i64, count: i32) -> i64
    ensures { result ≡ shifted Big Shift.Right a count }
{
    a.wrapping_shr(count.cast_unsigned())
}

/// What an operator gives.
///
/// # Errors
/// `ZeroDivide` exactly where a division or remainder is by 0.
pub fn apply(operator: Operator, a: i64, b: i64) -> Result<i64, Raised>
    ensures { result ≡ applied Big operator a b }
{
    match operator {
        Operator::Add => Ok(a.wrapping_add(b)),
        Operator::Subtract => Ok(a.wrapping_sub(b)),
        Operator::Multiply => Ok(a.wrapping_mul(b)),
        Operator::Divide => divide(a, b),
        Operator::Remainder => remainder(a, b),
        Operator::And => Ok(a & b),
        Operator::Xor => Ok(a ^ b),
        Operator::Or => Ok(a | b),
    }
}

/// What a shift gives.
pub fn shift(shift: Shift, a: i64, count: i32) -> i64
    ensures { result ≡ shifted Big shift a count }
{
    match shift {
        Shift::Left => shift_left(a, count),
        Shift::Right => shift_right(a, count),
    }
}

/// What an operator on one number gives.
pub fn alter(unary: Unary, a: i64) -> i64
    ensures { result ≡ altered Big unary a }
{
    match unary {
        Unary::Plus => a,
        Unary::Minus => a.wrapping_neg(),
        Unary::Complement => !a,
        Unary::Increment => a.wrapping_add(1),
        Unary::Decrement => a.wrapping_sub(1),
    }
}
