//! Cuts a text into its tokens, from left to right.

ghost use Rattle.std.specs.Prelude.{◌≡◌, ◌≢◌, ◌≤◌, ◌<◌, ◌==◌, ℕ, List, not, length, map, Option, Some};
ghost use Rattle.std.specs.Prelude.{◌||◌, true, take, IfOk, IfErr, MatchOption, MatchResult, option_to_list};
ghost use Rattle.std.specs.Char.{is_digit};
ghost use Rattle.std.specs.Str.{IsUtf8};
ghost use Rattle.std.specs.List.{prefix_len};
ghost use Rattle.limbo_lexer.specs.declared.fault.Cause.{Cause};
ghost use Rattle.limbo_lexer.specs.declared.token.Kind.{Kind};
ghost use Rattle.limbo_lexer.specs.Tokens.{is_blank, is_letter, is_name_char, HasTokenList};
ghost use Rattle.limbo_lexer.specs.Words.{listed, marks, word_kind};
ghost use Rattle.limbo_lexer.specs.Numbers.{begins};
ghost use Rattle.limbo_lexer.specs.Pieces.{BeginsMark, BeginsPiece, HasNoMark, is_token_char};
ghost use Rattle.limbo_lexer.specs.Causes.{IsBadUtf8, IsCauseAt, IsFor, IsRefused, IsSource, Stops};

use crate::constants::{character_at, string_at};
use crate::fault::{Cause, Fault, LexFault, fault_at, fault_of_constant};
use crate::numbers::{is_digit, number_at};
use crate::place::Place;
use crate::token::{Kind, Mark, Token};
use crate::words::{key_of, mark_of};
use inf_text::Text;
use std::alloc::{AllocError, Global};

/// The greatest source, in bytes.
const SOURCE_LIMIT: usize = 1_048_576;

/// The piece at the front of a text: the token that it gives, if any, and what stands behind it.
#[derive(Drop)]
struct Piece<'a> {
    kind: Option<Kind>,
    rest: &'a [char],
}

/// Whether a character is a blank.
fn is_blank(c: char) -> bool
    ensures { result ≡ is_blank c }
{
    c == '\t' || c == '\n' || c == '\r' || c == ' '
}

/// Whether a name may begin with a character.
fn is_letter(c: char) -> bool
    ensures { result ≡ is_letter c }
{
    (c >= 'A' && c <= 'Z') || (c >= 'a' && c <= 'z') || c == '_' || c > '\u{A0}'
}

/// Whether a name may go on with a character.
fn is_name_char(c: char) -> bool
    ensures { result ≡ is_name_char c }
{
    is_letter(c) || (c >= '0' && c <= '9')
}

/// How many characters at the front stand before the line's end.
fn line_len(text: &[char]) -> usize
    ensures within { result ≤ length text.now }
    ensures longest { result ≡ prefix_len (λ c. not (c == 10)) text.now }
{
    for (i, c) in text.iter().enumerate() {
        if *c == '\n' {
            return i;
        }
    }
    text.len()
}

/// How many characters at the front may stand in a name.
fn name_len(text: &[char]) -> usize
    ensures within { result ≤ length text.now }
    ensures longest { result ≡ prefix_len is_name_char text.now }
{
    for (i, c) in text.iter().enumerate() {
        if !is_name_char(*c) {
            return i;
        }
    }
    text.len()
}

/// The operator or sign that the first `n` characters are.
fn mark_of_len(text: &[char], n: usize) -> Option<Mark>
    ensures { MatchOption result (HasNoMark text.now n)
        (λ mark. (n ≤ length text.now) × (listed marks (take n text.now) ≡ Some mark)) }
{
    if text.len() < n {
        return None;
    }
    mark_of(&text[..n])
}

/// The longest operator or sign at the front, and how many characters it has.
fn mark_at(text: &[char]) -> Option<(Mark, usize)>
    ensures { MatchOption result ((m : ℕ) → 0 < m → m ≤ 3 → HasNoMark text.now m)
        (λ found. BeginsMark text.now found.0 found.1) }
{
    if let Some(mark) = mark_of_len(text, 3) {
        return Some((mark, 3));
    }
    if let Some(mark) = mark_of_len(text, 2) {
        return Some((mark, 2));
    }
    let mark = mark_of_len(text, 1)?;
    Some((mark, 1))
}

/// The token of a word.
///
/// # Errors
/// Want of memory.
fn word_kind(alloc: Global, word: &[char]) -> Result<Kind, AllocError>
    ensures { IfOk result (λ kind. kind ≡ word_kind word.now) }
{
    if let Some(key) = key_of(word) {
        return Ok(Kind::Key(key));
    }
    let chars: Vec<char> = word.iter().copied().collect(alloc)?;
    Ok(Kind::Name(Text::from_vec(chars)))
}

/// The piece at the front that begins with a quote or an apostrophe.
fn constant_at(alloc: Global, text: &[char]) -> Result<Piece<'_>, Fault>
    requires { begins (λ c. c == 34 || c == 39) text.now ≡ true }
    ensures found { IfOk result (λ piece. BeginsPiece text.now (option_to_list piece.kind) piece.rest.now) }
    ensures refused { IfErr result (λ e. IsCauseAt text.now e.cause) }
{
    if text[0] == '"' {
        return match string_at(alloc, &text[1..]) {
            Ok((chars, rest)) => Ok(Piece {
                kind: Some(Kind::Chars(chars)),
                rest,
            }),
            Err(fault) => Err(fault_of_constant(fault, text)),
        };
    }
    match character_at(&text[1..]) {
        Ok((c, rest)) => Ok(Piece {
            kind: Some(Kind::Number {
                value: i64::from(c as u32),
                wide: false,
            }),
            rest,
        }),
        Err(fault) => Err(fault_of_constant(fault, text)),
    }
}

/// The piece at the front that begins a word, a number or a mark.
fn token_at(alloc: Global, text: &[char]) -> Result<Piece<'_>, Fault>
    requires { begins is_token_char text.now ≡ true }
    ensures found { IfOk result (λ piece. BeginsPiece text.now (option_to_list piece.kind) piece.rest.now) }
    ensures refused { IfErr result (λ e. IsCauseAt text.now e.cause) }
{
    let first = text[0];
    if is_letter(first) {
        let (word, rest) = text.split_at(name_len(text));
        return Ok(Piece {
            kind: Some(word_kind(alloc, word)?),
            rest,
        });
    }
    if is_digit(first) {
        let (kind, rest) = number_at(text)?;
        return Ok(Piece {
            kind: Some(kind),
            rest,
        });
    }
    match mark_at(text) {
        Some((mark, n)) => Ok(Piece {
            kind: Some(Kind::Mark(mark)),
            rest: &text[n..],
        }),
        None => Err(fault_at(Cause::BadChar, text, 1)),
    }
}

/// The longest piece at the front.
fn piece_at(alloc: Global, text: &[char]) -> Result<Piece<'_>, Fault>
    requires { 0 < length text.now }
    ensures found { IfOk result (λ piece. BeginsPiece text.now (option_to_list piece.kind) piece.rest.now) }
    ensures refused { IfErr result (λ e. IsCauseAt text.now e.cause) }
{
    let first = text[0];
    if is_blank(first) {
        return Ok(Piece {
            kind: None,
            rest: &text[1..],
        });
    }
    if first == '#' {
        let (_, rest) = text.split_at(line_len(text));
        return Ok(Piece { kind: None, rest });
    }
    if first == '"' || first == '\'' {
        return constant_at(alloc, text);
    }
    token_at(alloc, text)
}

/// The refusal for a fault of what stands at a place.
fn placed(fault: Fault, place: Place, text: &[char]) -> LexFault
    ensures { IsFor fault.cause result }
{
    let at = text.len().saturating_sub(fault.left);
    let span = place.behind(&text[..at]).span(fault.len);
    match fault.cause {
        Cause::NoMemory => LexFault::NoMemory,
        Cause::BadChar => LexFault::BadChar(span),
        Cause::BadEscape => LexFault::BadEscape(span),
        Cause::NumberTooWide => LexFault::NumberTooWide(span),
        Cause::Unclosed => LexFault::Unclosed(span),
    }
}

/// The tokens of a text, and then the end.
///
/// # Errors
/// What is wrong with the first piece that isn't well-formed; `NoMemory`.
fn tokens(alloc: Global, text: &[char]) -> Result<Vec<Token>, LexFault>
    ensures found { IfOk result (λ tokens. HasTokenList text.now (map (λ token. token.kind) tokens.items)) }
    ensures refused { IfErr result (λ e. (fault : Cause) × IsFor fault e × Stops text.now fault) }
{
    let mut tokens = Vec::new(alloc);
    let mut rest = text;
    let mut place = Place::first();
    while !rest.is_empty() {
        let piece = match piece_at(alloc, rest) {
            Ok(piece) => piece,
            Err(fault) => return Err(placed(fault, place, rest)),
        };
        let Piece { kind, rest: behind } = piece;
        let len = rest.len().saturating_sub(behind.len());
        if let Some(kind) = kind {
            tokens.push(Token {
                kind,
                span: place.span(len),
            })?;
        }
        place = place.behind(&rest[..len]);
        rest = behind;
    }
    tokens.push(Token {
        kind: Kind::End,
        span: place.span(0),
    })?;
    Ok(tokens)
}

/// The tokens of a source, and then the end, in time that is linear in its length.
///
/// # Errors
/// In this order: `SourceTooLong` (24) above 1,048,576 bytes; `BadUtf8` (1) at the first ill-formed sequence;
/// `BadChar` (20), `BadEscape` (21), `NumberTooWide` (22) or `Unclosed` (23) at the first piece that isn't
/// well-formed; `NoMemory`.
pub fn lex(alloc: Global, bytes: &[u8]) -> Result<Vec<Token>, LexFault>
    // What is found is the token list of the source's text.
    ensures found { IfOk result (λ tokens. (text : List ℕ) × IsSource bytes.now text
        × HasTokenList text (map (λ token. token.kind) tokens.items)) }
    // Each refusal has its cause.
    ensures refused { IfErr result (IsRefused bytes.now) }
    // Where it refuses, but for want of memory, no text of the source has a token list.
    ensures none { IfErr result (λ e. e ≢ LexFault.NoMemory
        → (text : List ℕ) (list : List Kind) → IsSource bytes.now text → HasTokenList text list → ⊥) }
    // Any token list of the source is the one found, and only want of memory keeps it from being found.
    ensures only { (text : List ℕ) (list : List Kind) → IsSource bytes.now text → HasTokenList text list
        → MatchResult result (λ tokens. map (λ token. token.kind) tokens.items ≡ list)
        (λ e. e ≡ LexFault.NoMemory) }
    // Too long a source is refused as that before anything else.
    ensures too_long { 1048576 < length bytes.now → result ≡ Err LexFault.SourceTooLong }
    // Ill-formed bytes of a source that isn't too long are refused as that; `refused` says at which place.
    ensures ill_formed { length bytes.now ≤ 1048576 → (IsUtf8 bytes.now → ⊥)
        → MatchResult result (λ _. ⊥) IsBadUtf8 }
{
    if bytes.len() > SOURCE_LIMIT {
        return Err(LexFault::SourceTooLong);
    }
    let text = Text::from_utf8(alloc, bytes)?;
    tokens(alloc, text.as_slice())
}
