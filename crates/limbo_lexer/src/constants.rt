//! What stands in string and character constants.

ghost use Rattle.std.specs.Prelude.{◌≡◌, ◌≤◌, ◌<◌, ◌∷◌, ◌==◌, ℕ, true, false, length, drop, slice_index};
ghost use Rattle.std.specs.Prelude.{IfOk, IfErr, IfSome, IfNone, MatchOption};
ghost use Rattle.limbo_lexer.specs.Numbers.{begins};
ghost use Rattle.limbo_lexer.specs.Constants.{Code, code_value, ends_line, escaped, is_part};
ghost use Rattle.limbo_lexer.specs.Pieces.{BeginsPart, EndsString, EndsCharacter, HasNoPart};
ghost use Rattle.limbo_lexer.specs.Pieces.{IsStuck, IsBadString, IsBadCharacter};

use crate::fault::{Cause, Fault, fault_at};
use crate::numbers::digit_value;
use inf_text::Text;
use std::alloc::Global;

/// What the character behind a backslash stands for.
fn escaped(c: char) -> Option<char>
    ensures { result ≡ escaped c }
{
    match c {
        '\\' | '"' | '\'' => Some(c),
        'a' => Some('\u{7}'),
        'b' => Some('\u{8}'),
        't' => Some('\t'),
        'n' => Some('\n'),
        'v' => Some('\u{b}'),
        'f' => Some('\u{c}'),
        'r' => Some('\r'),
        '0' => Some('\0'),
        _ => None,
    }
}

/// The character that the four hexadecimal digits at the front name, unless it is a surrogate.
fn code_at(text: &[char]) -> Option<char>
    requires { 4 ≤ length text.now }
    ensures found { IfSome result (λ n. (quote : ℕ) → let digit = slice_index text.now in
        (is_part quote (Code (digit 0) (digit 1) (digit 2) (digit 3)) ≡ true)
        × (code_value (digit 0) (digit 1) (digit 2) (digit 3) ≡ n)) }
    ensures refused { IfNone result ((quote : ℕ) → let digit = slice_index text.now in
        is_part quote (Code (digit 0) (digit 1) (digit 2) (digit 3)) ≡ false) }
{
    let a = digit_value(text[0]);
    let b = digit_value(text[1]);
    let c = digit_value(text[2]);
    let d = digit_value(text[3]);
    if a < 16 && b < 16 && c < 16 && d < 16 {
        char::from_u32(((a * 16 + b) * 16 + c) * 16 + d)
    } else {
        None
    }
}

/// The escape at the front of a text that begins with a backslash: its character, and what stands behind it.
fn escape_at(text: &[char]) -> Option<(char, &[char])>
    requires { begins (λ c. c == 92) text.now ≡ true }
    ensures { MatchOption result ((quote : ℕ) → HasNoPart quote text.now)
        (λ part. (quote : ℕ) → BeginsPart quote text.now part.0 part.1.now) }
{
    if text.len() < 2 {
        return None;
    }
    if text[1] == 'u' {
        if text.len() < 6 {
            return None;
        }
        let char = code_at(&text[2..])?;
        return Some((char, &text[6..]));
    }
    let char = escaped(text[1])?;
    Some((char, &text[2..]))
}

/// Whether a text or its line ends here.
fn ends_line(text: &[char]) -> bool
    ensures { result ≡ ends_line text.now }
{
    text.is_empty() || text[0] == '\n'
}

/// The part of a constant at the front: its character, and what stands behind it; or nothing at the closing quote.
fn part_at(quote: char, text: &[char]) -> Result<Option<(char, &[char])>, Fault>
    ensures found { IfOk result (λ part. MatchOption part (text.now ≡ quote ∷ drop 1 text.now)
        (λ part. BeginsPart quote text.now part.0 part.1.now)) }
    ensures refused { IfErr result (λ e. IsStuck text.now e.cause) }
{
    if ends_line(text) {
        return Err(fault_at(Cause::Unclosed, text, 1));
    }
    let first = text[0];
    if first == quote {
        return Ok(None);
    }
    if first != '\\' {
        return Ok(Some((first, &text[1..])));
    }
    if ends_line(&text[1..]) {
        return Err(fault_at(Cause::Unclosed, text, 1));
    }
    match escape_at(text) {
        Some(part) => Ok(Some(part)),
        None => Err(fault_at(Cause::BadEscape, text, 2)),
    }
}

/// The text of a string constant behind its opening quote, and what stands behind the closing one.
pub fn string_at(alloc: Global, text: &[char]) -> Result<(Text, &[char]), Fault>
    ensures found { IfOk result (λ string. EndsString text.now string.0 string.1.now) }
    ensures refused { IfErr result (λ e. IsBadString text.now e.cause) }
{
    let mut chars = Text::new(alloc);
    let mut rest = text;
    while let Some((c, after)) = part_at('"', rest)? {
        chars.push(c)?;
        rest = after;
    }
    Ok((chars, &rest[1..]))
}

/// The character of a character constant behind its opening quote, and what stands behind the closing one.
pub fn character_at(text: &[char]) -> Result<(char, &[char]), Fault>
    ensures found { IfOk result (λ character. EndsCharacter text.now character.0 character.1.now) }
    ensures refused { IfErr result (λ e. IsBadCharacter text.now e.cause) }
{
    let Some((c, after)) = part_at('\'', text)? else {
        return Err(fault_at(Cause::BadChar, text, 1));
    };
    if after.is_empty() || after[0] != '\'' {
        return Err(fault_at(Cause::Unclosed, text, 1));
    }
    Ok((c, &after[1..]))
}
