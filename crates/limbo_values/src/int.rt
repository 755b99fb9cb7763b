//! Operations on ints, which are 32 bits, signed.

ghost use Rattle.std.specs.Prelude.{◌≡◌};
ghost use Rattle.limbo_values.specs.declared.number.Kind.TheVariants.{Int};
ghost use Rattle.limbo_values.specs.Numbers.{wrapped};
ghost use Rattle.limbo_values.specs.Operators.{applied, shifted, altered, truth, holds as is_true};
ghost use Rattle.limbo_values.specs.Conversions.{number_read};

use crate::operator::{Operator, Shift, Unary};
use crate::raised::Raised;
use inf_text::Text;

/// `int e` of a number: what is left of it in 32 bits.
pub fn wrap(z: i64) -> i32
    ensures { result ≡ wrapped Int z }
{
    (z.rem_euclid(1 << 32) as u32).cast_signed()
}

/// `int s` of a string.
pub fn read(text: &Text) -> i32
    ensures { result ≡ number_read Int text.now }
{
    wrap(text.read_decimal())
}

/// `a / b`, rounded toward zero.
///
/// # Errors
/// `ZeroDivide` exactly where b is 0.
pub fn divide(a: i32, b: i32) -> Result<i32, Raised>
    ensures { result ≡ applied Int Operator.Divide a b }
{
    if b == 0 {
        return Err(Raised::ZeroDivide);
    }
    Ok(a.wrapping_div(b))
}

/// `a % b`, with the sign of a.
///
/// # Errors
/// `ZeroDivide` exactly where b is 0.
pub fn remainder(a: i32, b: i32) -> Result<i32, Raised>
    ensures { result ≡ applied Int Operator.Remainder a b }
{
    if b == 0 {
        return Err(Raised::ZeroDivide);
    }
    Ok(a.wrapping_rem(b))
}

/// `a << count`, where the count is taken modulo 32.
pub fn shift_left(a: i32, count: i32) -> i32
    ensures { result ≡ shifted Int Shift.Left a count }
{
    a.wrapping_shl(count.cast_unsigned())
}

/// `a >> count`, which keeps the sign. The count is taken modulo 32.
pub fn shift_right(a: i32, count: i32) -> i32
    ensures { result ≡ shifted Int Shift.Right a count }
{
    a.wrapping_shr(count.cast_unsigned())
}

/// What an operator gives.
///
/// # Errors
/// `ZeroDivide` exactly where a division or remainder is by 0.
pub fn apply(operator: Operator, a: i32, b: i32) -> Result<i32, Raised>
    ensures { result ≡ applied Int operator a b }
{
    match operator {
        Operator::Add => Ok(a.wrapping_add(b)),
        Operator::Subtract => Ok(a.wrapping_sub(b)),
        Operator::Multiply => Ok(a.wrapping_mul(b)),
        Operator::Divide => divide(a, b),
        Operator::Remainder => remainder(a, b),
        Operator::And => Ok(a & b),
        Operator::Xor => Ok(a ^ b),
        Operator::Or => Ok(a | b),
    }
}

/// What a shift gives.
pub fn shift(shift: Shift, a: i32, count: i32) -> i32
    ensures { result ≡ shifted Int shift a count }
{
    match shift {
        Shift::Left => shift_left(a, count),
        Shift::Right => shift_right(a, count),
    }
}

/// What an operator on one number gives.
pub fn alter(unary: Unary, a: i32) -> i32
    ensures { result ≡ altered Int unary a }
{
    match unary {
        Unary::Plus => a,
        Unary::Minus => a.wrapping_neg(),
        Unary::Complement => !a,
        Unary::Increment => a.wrapping_add(1),
        Unary::Decrement => a.wrapping_sub(1),
    }
}

/// What a comparison gives: 1 where it holds, else 0.
pub fn truth(is_so: bool) -> i32
    ensures { result ≡ truth is_so }
{
    if is_so { 1 } else { 0 }
}

/// Whether a condition holds: its int isn't 0.
pub fn holds(z: i32) -> bool
    ensures { result ≡ is_true z }
{
    z != 0
}
