//! Numbers and bytes as strings spell them, by the codes of their characters (Limbo Language Reference, conversions).

ghost use Rattle.std.specs.Prelude.{◌≡◌, ◌%◌, ◌^◌, IfOk, encode_utf8_all, string_bytes};
ghost use Rattle.inf_text.specs.InFront as front;
ghost use Rattle.limbo_bytes.specs.Bytes.{characters};
ghost use Rattle.limbo_values.specs.Conversions as conversions;
ghost use Rattle.limbo_values.specs.Numbers.{kind_of, value_of};

use inf_text::Text;
use limbo_values::{Kind, Number};
use std::alloc::{AllocError, Global};

const MINUS: u32 = '-' as u32;

const PLUS: u32 = '+' as u32;

fn is_blank(code: u32) -> bool
    ensures { result ≡ front.is_blank code }
{
    code == '\t' as u32 || code == '\n' as u32 || code == '\r' as u32 || code == ' ' as u32
}

fn is_digit(code: u32) -> bool
    ensures { result ≡ front.is_digit code }
{
    code >= '0' as u32 && code <= '9' as u32
}

// What stands behind the blanks at the front.
fn behind_blanks(codes: &[u32]) -> &[u32]
    ensures { result.now ≡ front.behind_blanks codes.now }
{
    let mut rest = codes;
    while let [code, behind @ ..] = rest {
        if !is_blank(*code) {
            return rest;
        }
        rest = behind;
    }
    rest
}

// The low 64 bits of the number that the digits at the front write.
fn digits_in(codes: &[u32]) -> u64
    ensures { result ≡ front.number_after 0 codes.now % 2 ^ 64 }
{
    let mut number = 0u64;
    for code in codes {
        if !is_digit(*code) {
            return number;
        }
        let digit = u64::from(*code - '0' as u32);
        number = number.wrapping_mul(10).wrapping_add(digit);
    }
    number
}

// The number at the front, as it wraps at 64 bits.
fn read_decimal(codes: &[u32]) -> i64
    ensures { result ≡ front.number_in_front codes.now }
{
    match behind_blanks(codes) {
        [MINUS, digits @ ..] => digits_in(digits).cast_signed().wrapping_neg(),
        [PLUS, digits @ ..] => digits_in(digits).cast_signed(),
        digits => digits_in(digits).cast_signed(),
    }
}

/// The number at the front of a string: blanks are skipped, then one sign may stand, then decimal digits.
pub(crate) fn number_read(kind: Kind, codes: &[u32]) -> Number
    ensures number { value_of result ≡ conversions.number_read kind codes.now }
    ensures kind { kind_of result ≡ kind }
{
    Number::Big(read_decimal(codes)).to_kind(kind)
}

// The codes of characters.
fn codes_of(alloc: Global, chars: &[char]) -> Result<Vec<u32>, AllocError>
    ensures { IfOk result (λ codes. codes.items ≡ chars.now) }
{
    chars.iter().map(|c| *c as u32).collect(alloc)
}

/// A number as a string: a minus sign where it is below 0, and its digits without leading zeros.
pub(crate) fn number_text(alloc: Global, number: Number) -> Result<Vec<u32>, AllocError>
    ensures { IfOk result (λ codes. codes.items ≡ conversions.number_text (value_of number)) }
{
    let text = number.to_text(alloc)?;
    codes_of(alloc, text.as_slice())
}

// The characters of these codes. No string has a code that is no character's.
fn characters_of(alloc: Global, codes: &[u32]) -> Result<String, AllocError>
    ensures { IfOk result (λ text. string_bytes text ≡ encode_utf8_all codes.now) }
{
    let mut text = String::new(alloc);
    for code in codes {
        match char::from_u32(*code) {
            Some(c) => text.push(c)?,
            None => return Err(AllocError),
        }
    }
    Ok(text)
}

/// The bytes that spell a string in UTF-8.
pub(crate) fn spelled(alloc: Global, codes: &[u32]) -> Result<Vec<u8>, AllocError>
    ensures { IfOk result (λ bytes. bytes.items ≡ encode_utf8_all codes.now) }
{
    let text = characters_of(alloc, codes)?;
    Ok(text.into_bytes())
}

/// The string that bytes spell in UTF-8, with U+FFFD for each byte that begins no character.
pub(crate) fn read_bytes(alloc: Global, bytes: &[u8]) -> Result<Vec<u32>, AllocError>
    ensures { IfOk result (λ codes. codes.items ≡ characters 0 bytes.now) }
{
    let text = Text::from_utf8_lossy(alloc, bytes)?;
    codes_of(alloc, text.as_slice())
}
