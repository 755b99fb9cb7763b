//! Verbs of formats (Inferno manual, sys-print(2)).

ghost use Rattle.std.specs.Prelude.{◌+◌, ◌≤◌, length, IfSome};
ghost use Rattle.dis_formats.specs.Formatting.{width, IsVerb};

/// The characters of verbs, by their codes.
pub(crate) const PERCENT: u32 = '%' as u32;

const BIG: u32 = 'b' as u32;

const CHARACTER: u32 = 'c' as u32;

const DECIMAL: u32 = 'd' as u32;

const CHARACTERS: u32 = 's' as u32;

const HEXADECIMAL: u32 = 'x' as u32;

/// A verb of a format.
#[derive(Clone, Copy)]
pub(crate) enum Verb {
    /// `%%`: the character.
    Percent,
    /// `%d`: an int as a decimal number.
    Decimal,
    /// `%bd`: a big as a decimal number.
    BigDecimal,
    /// `%c`: the character of a code, which is an int.
    Character,
    /// `%x`: an int to the base 16.
    Hexadecimal,
    /// `%s`: a string.
    Characters,
}

/// The verb behind a `%`, and what follows it.
pub(crate) fn verb_of(behind: &[u32]) -> Option<(Verb, &[u32])>
    ensures verb { IsVerb result behind.now }
    ensures shorter { IfSome result (λ r. length r.1.now + width r.0 ≤ length behind.now) }
{
    let Some((first, rest)) = behind.split_first() else {
        return None;
    };
    match *first {
        PERCENT => Some((Verb::Percent, rest)),
        DECIMAL => Some((Verb::Decimal, rest)),
        BIG => match rest.split_first() {
            Some((second, rest)) => if *second == DECIMAL {
                Some((Verb::BigDecimal, rest))
            } else {
                None
            },
            None => None,
        },
        CHARACTER => Some((Verb::Character, rest)),
        HEXADECIMAL => Some((Verb::Hexadecimal, rest)),
        CHARACTERS => Some((Verb::Characters, rest)),
        _ => None,
    }
}
