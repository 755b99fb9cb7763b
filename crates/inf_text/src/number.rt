ghost use Rattle.std.specs.Prelude.{◌≡◌, ◌%◌, ◌^◌};
ghost use Rattle.inf_text.specs.InFront.{is_blank, is_digit, behind_blanks, number_after, signed_number, number_in_front};

use crate::text::Text;

fn is_blank(c: char) -> bool
    ensures { result ≡ is_blank c }
{
    c == '\t' || c == '\n' || c == '\r' || c == ' '
}

fn is_digit(c: char) -> bool
    ensures { result ≡ is_digit c }
{
    c >= '0' && c <= '9'
}

/// What stands behind the blanks at the front.
fn behind_blanks(chars: &[char]) -> &[char]
    ensures { result.now ≡ behind_blanks chars.now }
{
    let mut rest = chars;
    while let [c, behind @ ..] = rest {
        if !is_blank(*c) {
            return rest;
        }
        rest = behind;
    }
    rest
}

/// The low 64 bits of the number that the digits at the front write.
fn number_of(chars: &[char]) -> u64
    ensures { result ≡ number_after 0 chars.now % 2 ^ 64 }
{
    let mut number = 0u64;
    for c in chars {
        if !is_digit(*c) {
            return number;
        }
        let digit = u64::from(*c as u32 - '0' as u32);
        number = number.wrapping_mul(10).wrapping_add(digit);
    }
    number
}

impl Text {
    /// The number at the front: blanks are skipped, then one sign may stand, then decimal digits. It wraps at 64 bits,
    /// and is 0 where there is no digit. It takes no memory.
    pub fn read_decimal(&self) -> i64
        ensures { result ≡ number_in_front self.now }
    {
        match behind_blanks(self.as_slice()) {
            ['-', digits @ ..] => number_of(digits).cast_signed().wrapping_neg(),
            ['+', digits @ ..] => number_of(digits).cast_signed(),
            digits => number_of(digits).cast_signed(),
        }
    }
}
