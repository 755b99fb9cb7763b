//! Parts of tuples by their names.

ghost use Rattle.std.specs.Prelude.{◌≡◌, ◌<◌, ◌≤◌, ◌+◌, ◌-◌, ◌*◌, ◌^◌, ℕ, true, IfSome, IfNone};
ghost use Rattle.inf_text.specs.InFront.{number_after, is_digit};
ghost use Rattle.limbo_fields.specs.Fields.{IsPlaceName, AllDigits, is_plain};

fn is_digit(c: char) -> bool
    ensures { result ≡ is_digit c }
{
    c >= '0' && c <= '9'
}

// A number with one digit more, if it isn't too large.
fn one_more(number: usize, digit: char) -> Option<usize>
    requires { is_digit digit ≡ true }
    ensures some { IfSome result (λ n. n ≡ 10 * number + (digit - 48)) }
    ensures none { IfNone result (2 ^ 64 ≤ 10 * number + (digit - 48)) }
{
    number
        .checked_mul(10)?
        .checked_add((digit as u32 - '0' as u32) as usize)
}

// The number below a bound that digits write.
fn number_below(digits: &[char], bound: usize) -> Option<usize>
    requires { 0 < bound }
    ensures some { IfSome result (λ n. AllDigits digits.now × (n ≡ number_after 0 digits.now) × (n < bound)) }
    ensures none { IfNone result (AllDigits digits.now → bound ≤ number_after 0 digits.now) }
{
    let mut number: usize = 0;
    let mut rest = digits;
    while let [c, behind @ ..] = rest {
        if !is_digit(*c) {
            return None;
        }
        let next = one_more(number, *c)?;
        if next >= bound {
            return None;
        }
        number = next;
        rest = behind;
    }
    Some(number)
}

// Whether no zero stands in front of other digits.
fn is_plain(digits: &[char]) -> bool
    ensures { result ≡ is_plain digits.now }
{
    match digits {
        [] => false,
        [_] => true,
        [c, ..] => *c != '0',
    }
}

/// The number below a bound whose name this is as a part of a tuple: `t` and its decimal digits, without zeros in front.
pub(crate) fn place_of(name: &[char], bound: usize) -> Option<usize>
    ensures some { IfSome result (λ n. IsPlaceName name.now n × (n < bound)) }
    ensures none { IfNone result ((n : ℕ) → IsPlaceName name.now n → bound ≤ n) }
{
    match name {
        [] => None,
        [first, digits @ ..] => {
            if *first != 't' || !is_plain(digits) || bound == 0 {
                return None;
            }
            number_below(digits, bound)
        }
    }
}
