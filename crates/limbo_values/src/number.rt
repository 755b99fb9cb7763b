ghost use Rattle.std.specs.Prelude.{◌≡◌, IfOk, Result};
ghost use Rattle.std.specs.Result.{result_map_both};
ghost use Rattle.limbo_values.specs.Numbers.{wrapped, kind_of, value_of, number_of};
ghost use Rattle.limbo_values.specs.Operators.{applied, shifted, altered, compared, denied};
ghost use Rattle.limbo_values.specs.Conversions.{number_text, number_read};

use crate::operator::{Comparison, Operator, Shift, Unary};
use crate::raised::Raised;
use crate::{big, byte, int};
use inf_text::{Text, decimal};
use std::alloc::{AllocError, Global};

/// The kinds of numbers.
#[derive(Clone, Copy, PartialEq, Eq, Debug)]
pub enum Kind {
    /// 8 bits, unsigned.
    Byte,
    /// 32 bits, signed.
    Int,
    /// 64 bits, signed.
    Big,
}

/// A number of one of the kinds.
#[derive(Clone, Copy, PartialEq, Eq, Debug)]
pub enum Number {
    Byte(u8),
    Int(i32),
    Big(i64),
}

impl Number {
    pub fn kind(self) -> Kind
        ensures { result ≡ kind_of self }
    {
        match self {
            Number::Byte(_) => Kind::Byte,
            Number::Int(_) => Kind::Int,
            Number::Big(_) => Kind::Big,
        }
    }

    /// What the number is, as the widest kind.
    pub fn value(self) -> i64
        ensures { result ≡ value_of self }
    {
        match self {
            Number::Byte(a) => i64::from(a),
            Number::Int(a) => i64::from(a),
            Number::Big(a) => a,
        }
    }

    /// The conversion to a kind, as `byte e`, `int e` and `big e`: what is left in its bits.
    pub fn to_kind(self, kind: Kind) -> Number
        ensures { result ≡ number_of kind (wrapped kind (value_of self)) }
    {
        let value = self.value();
        match kind {
            Kind::Byte => Number::Byte(byte::wrap(value)),
            Kind::Int => Number::Int(int::wrap(value)),
            Kind::Big => Number::Big(value),
        }
    }

    /// `string e`: the decimal spelling.
    ///
    /// # Errors
    /// Want of memory.
    pub fn to_text(self, alloc: Global) -> Result<Text, AllocError>
        ensures { IfOk result (λ text. text ≡ number_text (value_of self)) }
    {
        decimal(alloc, self.value())
    }
}

/// `int s` and `big s`: the number at the front of a string.
pub fn number_of_text(kind: Kind, text: &Text) -> Number
    ensures { result ≡ number_of kind (number_read kind text.now) }
{
    Number::Big(text.read_decimal()).to_kind(kind)
}

/// What an operator gives of two numbers of one kind.
///
/// # Errors
/// `ZeroDivide` exactly where a division or remainder is by 0.
pub fn apply(operator: Operator, a: Number, b: Number) -> Result<Number, Raised>
    requires { kind_of b ≡ kind_of a }
    ensures { result ≡ result_map_both (number_of (kind_of a)) (λ e. e) (applied (kind_of a) operator (value_of a) (value_of b)) }
{
    match (a, b) {
        (Number::Byte(a), Number::Byte(b)) => byte::apply(operator, a, b).map(Number::Byte),
        (Number::Int(a), Number::Int(b)) => int::apply(operator, a, b).map(Number::Int),
        (Number::Big(a), Number::Big(b)) => big::apply(operator, a, b).map(Number::Big),
        _ => unreachable!(),
    }
}

/// What a shift gives of a number and a count.
pub fn shift(shift: Shift, a: Number, count: i32) -> Number
    ensures { result ≡ number_of (kind_of a) (shifted (kind_of a) shift (value_of a) count) }
{
    match a {
        Number::Byte(a) => Number::Byte(byte::shift(shift, a, count)),
        Number::Int(a) => Number::Int(int::shift(shift, a, count)),
        Number::Big(a) => Number::Big(big::shift(shift, a, count)),
    }
}

/// What an operator on one number gives.
pub fn alter(unary: Unary, a: Number) -> Number
    ensures { result ≡ number_of (kind_of a) (altered (kind_of a) unary (value_of a)) }
{
    match a {
        Number::Byte(a) => Number::Byte(byte::alter(unary, a)),
        Number::Int(a) => Number::Int(int::alter(unary, a)),
        Number::Big(a) => Number::Big(big::alter(unary, a)),
    }
}

/// Whether a comparison holds of two numbers.
pub fn compare(comparison: Comparison, a: Number, b: Number) -> bool
    ensures { result ≡ compared comparison (value_of a) (value_of b) }
{
    comparison.is_met(a.value().cmp(&b.value()))
}

/// `!a` of an int.
pub fn deny(a: i32) -> i32
    ensures { result ≡ denied a }
{
    int::truth(a == 0)
}
