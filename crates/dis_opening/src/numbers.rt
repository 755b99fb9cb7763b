//! Bytes as numbers, the high byte first.

ghost use Rattle.std.specs.Prelude.{◌≡◌, ℕ, ◌<◌, [], ◌∷◌, length, IfNone, IfSome};
ghost use Rattle.dis_meaning.specs.Words.{Found, Wrong, type_check};
ghost use Rattle.dis_counts.specs.Opening as opening;
ghost use Rattle.dis_opening.specs.Numbers.{BeginsWith};

use limbo_values::{Kind, Number};

/// How many bytes a number has.
pub(crate) fn width(kind: Kind) -> usize
    ensures { result ≡ opening.width kind }
{
    match kind {
        Kind::Byte => 1,
        Kind::Int => 4,
        Kind::Big => 8,
    }
}

fn first_byte(bytes: &[u8]) -> Option<Number>
    ensures some { IfSome result (BeginsWith Kind.Byte bytes.now) }
    ensures none { IfNone result (0 < length bytes.now → opening.numbers Kind.Byte bytes.now ≡ Wrong type_check) }
{
    match bytes {
        [a, ..] => Some(Number::Byte(*a)),
        _ => None,
    }
}

fn first_int(bytes: &[u8]) -> Option<Number>
    ensures some { IfSome result (BeginsWith Kind.Int bytes.now) }
    ensures none { IfNone result (0 < length bytes.now → opening.numbers Kind.Int bytes.now ≡ Wrong type_check) }
{
    match bytes {
        [a, b, c, d, ..] => {
            let number = u32::from_be_bytes([*a, *b, *c, *d]);
            Some(Number::Int(number.cast_signed()))
        }
        _ => None,
    }
}

fn first_big(bytes: &[u8]) -> Option<Number>
    ensures some { IfSome result (BeginsWith Kind.Big bytes.now) }
    ensures none { IfNone result (0 < length bytes.now → opening.numbers Kind.Big bytes.now ≡ Wrong type_check) }
{
    match bytes {
        [a, b, c, d, e, f, g, h, ..] => {
            let number = u64::from_be_bytes([*a, *b, *c, *d, *e, *f, *g, *h]);
            Some(Number::Big(number.cast_signed()))
        }
        _ => None,
    }
}

/// The number of a kind that bytes begin with. There is none where they are too few.
pub(crate) fn first_number(kind: Kind, bytes: &[u8]) -> Option<Number>
    ensures some { IfSome result (BeginsWith kind bytes.now) }
    ensures none { IfNone result (0 < length bytes.now → opening.numbers kind bytes.now ≡ Wrong type_check) }
{
    match kind {
        Kind::Byte => first_byte(bytes),
        Kind::Int => first_int(bytes),
        Kind::Big => first_big(bytes),
    }
}

/// The one number that four bytes make.
pub(crate) fn single(bytes: &[u8]) -> Option<u32>
    ensures some { IfSome result (λ n. opening.fours bytes.now ≡ Found (n ∷ [])) }
    ensures none { IfNone result ((n : ℕ) → opening.fours bytes.now ≡ Found (n ∷ []) → ⊥) }
{
    match bytes {
        [a, b, c, d] => Some(u32::from_be_bytes([*a, *b, *c, *d])),
        _ => None,
    }
}

/// The two numbers that eight bytes make.
pub(crate) fn pair(bytes: &[u8]) -> Option<(u32, u32)>
    ensures some { IfSome result (λ p. opening.fours bytes.now ≡ Found (p.0 ∷ p.1 ∷ [])) }
    ensures none { IfNone result ((m n : ℕ) → opening.fours bytes.now ≡ Found (m ∷ n ∷ []) → ⊥) }
{
    match bytes {
        [a, b, c, d, e, f, g, h] => Some((
            u32::from_be_bytes([*a, *b, *c, *d]),
            u32::from_be_bytes([*e, *f, *g, *h]),
        )),
        _ => None,
    }
}
