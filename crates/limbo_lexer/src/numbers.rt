//! Numbers.

ghost use Rattle.std.specs.Prelude.{◌≡◌, ◌≤◌, ◌<◌, ◌^◌, ◌∷◌, [], true, false, SomeIff, length};
ghost use Rattle.std.specs.Prelude.{IfOk, IfErr, MatchOption};
ghost use Rattle.std.specs.List.{prefix_len};
ghost use Rattle.std.specs.Char.{digit_value, is_digit};
ghost use Rattle.limbo_lexer.specs.Numbers.{begins, begins_fraction, decimal_kind, digits_value, is_radix};
ghost use Rattle.limbo_lexer.specs.Numbers.{is_decimal_value};
ghost use Rattle.limbo_lexer.specs.Numbers.{is_radix_value, radix_kind};
ghost use Rattle.limbo_lexer.specs.Causes.{IsCauseAt};
ghost use Rattle.limbo_lexer.specs.Pieces.{BeginsPiece, IsBadNumber, goes_on};

use crate::fault::{Cause, Fault, fault_before};
use crate::token::Kind;

/// The value of a digit or a letter, from 0 to 35, and 36 of any other character.
pub fn digit_value(c: char) -> u32
    ensures { result ≡ digit_value c }
{
    c.to_digit(36).unwrap_or(36)
}

/// How many characters at the front are digits below a radix.
fn digits_len(radix: u32, text: &[char]) -> usize
    ensures within { result ≤ length text.now }
    ensures longest { result ≡ prefix_len (λ c. is_digit c radix) text.now }
{
    for (i, c) in text.iter().enumerate() {
        if digit_value(*c) >= radix {
            return i;
        }
    }
    text.len()
}

/// The value of digits, if it is below 2^64.
fn digits_value(radix: u32, digits: &[char]) -> Option<u64>
    requires { 0 < radix }
    ensures { SomeIff result (digits_value radix digits.now < 2 ^ 64) (digits_value radix digits.now) }
{
    let mut value = 0_u64;
    for c in digits {
        value = value
            .checked_mul(u64::from(radix))?
            .checked_add(u64::from(digit_value(*c)))?;
    }
    Some(value)
}

/// Whether a point and a digit follow.
fn begins_fraction(text: &[char]) -> bool
    ensures { result ≡ begins_fraction text.now }
{
    text.len() >= 2 && text[0] == '.' && digit_value(text[1]) < 10
}

/// The radix that decimal digits are, from 2 to 36.
fn radix_value(digits: &[char]) -> Option<u32>
    ensures { SomeIff result (is_radix digits.now ≡ true) (digits_value 10 digits.now) }
{
    let radix = u32::try_from(digits_value(10, digits)?).ok()?;
    if radix < 2 || radix > 36 {
        return None;
    }
    Some(radix)
}

/// The radix that decimal digits are, if a number with a radix goes on behind them.
fn radix_of(digits: &[char], behind: &[char]) -> Option<u32>
    ensures { MatchOption result (goes_on digits.now behind.now ≡ false)
        (λ radix. (goes_on digits.now behind.now ≡ true) × (radix ≡ digits_value 10 digits.now)) }
{
    let [sign, first, ..] = behind else {
        return None;
    };
    if *sign != 'r' && *sign != 'R' {
        return None;
    }
    let radix = radix_value(digits)?;
    if digit_value(*first) >= radix {
        return None;
    }
    Some(radix)
}

/// The decimal number of these digits, before this rest.
fn decimal_number(digits: &[char], rest: &[char]) -> Result<Kind, Cause>
    ensures found { let value = digits_value 10 digits.now in IfOk result (λ kind.
        (begins_fraction rest.now ≡ false) × (is_decimal_value value ≡ true) × (kind ≡ decimal_kind value)) }
    ensures refused { IfErr result (IsBadNumber (is_decimal_value (digits_value 10 digits.now)) rest.now) }
{
    if begins_fraction(rest) {
        return Err(Cause::BadChar);
    }
    match digits_value(10, digits) {
        Some(value) if value <= 9_223_372_036_854_775_807 => Ok(Kind::Number {
            value: value as i64,
            wide: value > 2_147_483_647,
        }),
        _ => Err(Cause::NumberTooWide),
    }
}

/// The number of these digits by a radix, before this rest.
fn radix_number(radix: u32, digits: &[char], rest: &[char]) -> Result<Kind, Cause>
    requires { 0 < radix }
    ensures found { let value = digits_value radix digits.now in IfOk result (λ kind.
        (begins_fraction rest.now ≡ false) × (is_radix_value value ≡ true) × (kind ≡ radix_kind value)) }
    ensures refused { IfErr result (IsBadNumber (is_radix_value (digits_value radix digits.now)) rest.now) }
{
    if begins_fraction(rest) {
        return Err(Cause::BadChar);
    }
    match digits_value(radix, digits) {
        Some(value) if value < 4_294_967_296 => Ok(Kind::Number {
            value: i64::from((value as u32).cast_signed()),
            wide: false,
        }),
        Some(value) => Ok(Kind::Number {
            value: value.cast_signed(),
            wide: true,
        }),
        None => Err(Cause::NumberTooWide),
    }
}

/// Whether a character is a decimal digit.
pub fn is_digit(c: char) -> bool
    ensures { result ≡ is_digit c 10 }
{
    digit_value(c) < 10
}

/// The longest number at the front of a text that begins with a digit, and what stands behind it.
pub fn number_at(text: &[char]) -> Result<(Kind, &[char]), Fault>
    requires { begins (λ c. is_digit c 10) text.now ≡ true }
    ensures found { IfOk result (λ number. BeginsPiece text.now (number.0 ∷ []) number.1.now) }
    ensures refused { IfErr result (λ e. IsCauseAt text.now e.cause) }
{
    let (digits, behind) = text.split_at(digits_len(10, text));
    match radix_of(digits, behind) {
        None => match decimal_number(digits, behind) {
            Ok(kind) => Ok((kind, behind)),
            Err(cause) => Err(fault_before(cause, text, behind)),
        },
        Some(radix) => {
            let tail = &behind[1..];
            let (digits, rest) = tail.split_at(digits_len(radix, tail));
            match radix_number(radix, digits, rest) {
                Ok(kind) => Ok((kind, rest)),
                Err(cause) => Err(fault_before(cause, text, rest)),
            }
        }
    }
}
