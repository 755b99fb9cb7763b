//! Operations on bytes, which are 8 bits, unsigned.

ghost use Rattle.std.specs.Prelude.{◌≡◌, pos};
ghost use Rattle.limbo_values.specs.declared.number.Kind.TheVariants.{Byte};
ghost use Rattle.limbo_values.specs.Numbers.{wrapped};
ghost use Rattle.limbo_values.specs.Operators.{applied, shifted, altered, as_integers};

use crate::operator::{Operator, Shift, Unary};
use crate::raised::Raised;

/// `byte e` of a number: what is left of it in 8 bits.
pub fn wrap(z: i64) -> u8
    ensures { pos result ≡ wrapped Byte z }
{
    z.rem_euclid(256) as u8
}

/// `a / b`, rounded down.
///
/// # Errors
/// `ZeroDivide` exactly where b is 0.
pub fn divide(a: u8, b: u8) -> Result<u8, Raised>
    ensures { as_integers result ≡ applied Byte Operator.Divide (pos a) (pos b) }
{
    if b == 0 {
        return Err(Raised::ZeroDivide);
    }
    Ok(a / b)
}

/// `a % b`.
///
/// # Errors
/// `ZeroDivide` exactly where b is 0.
pub fn remainder(a: u8, b: u8) -> Result<u8, Raised>
    ensures { as_integers result ≡ applied Byte Operator.Remainder (pos a) (pos b) }
{
    if b == 0 {
        return Err(Raised::ZeroDivide);
    }
    Ok(a % b)
}

/// `a << count`, where the count is taken modulo 8.
pub fn shift_left(a: u8, count: i32) -> u8
    ensures { pos result ≡ shifted Byte Shift.Left (pos a) count }
{
    a.wrapping_shl(count.cast_unsigned())
}

/// `a >> count`. The count is taken modulo 8.
pub fn shift_right(a: u8, count: i32) -> u8
    ensures { pos result ≡ shifted Byte Shift.Right (pos a) count }
{
    a.wrapping_shr(count.cast_unsigned())
}

/// What an operator gives.
///
/// # Errors
/// `ZeroDivide` exactly where a division or remainder is by 0.
pub fn apply(operator: Operator, a: u8, b: u8) -> Result<u8, Raised>
    ensures { as_integers result ≡ applied Byte operator (pos a) (pos b) }
{
    match operator {
        Operator::Add => Ok(a.wrapping_add(b)),
        Operator::Subtract => Ok(a.wrapping_sub(b)),
        Operator::Multiply => Ok(a.wrapping_mul(b)),
        Operator::Divide => divide(a, b),
        Operator::Remainder => remainder(a, b),
        Operator::And => Ok(a & b),
        Operator::Xor => Ok(a ^ b),
        Operator::Or => Ok(a | b),
    }
}

/// What a shift gives.
pub fn shift(shift: Shift, a: u8, count: i32) -> u8
    ensures { pos result ≡ shifted Byte shift (pos a) count }
{
    match shift {
        Shift::Left => shift_left(a, count),
        Shift::Right => shift_right(a, count),
    }
}

/// What an operator on one number gives.
pub fn alter(unary: Unary, a: u8) -> u8
    ensures { pos result ≡ altered Byte unary (pos a) }
{
    match unary {
        Unary::Plus => a,
        Unary::Minus => a.wrapping_neg(),
        Unary::Complement => !a,
        Unary::Increment => a.wrapping_add(1),
        Unary::Decrement => a.wrapping_sub(1),
    }
}
