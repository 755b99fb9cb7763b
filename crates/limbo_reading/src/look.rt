//! What stands at the front of the tokens.

ghost use Rattle.std.specs.Prelude.{◌≡◌, None, Some, MatchOption, length};
ghost use Rattle.limbo_reading.specs.Reading as reading;
ghost use Rattle.limbo_reading.specs.Reading.{kinds, Gives};

use crate::fault::{Fault, ReadError};
use inf_text::Span;
use limbo_lexer::{Key, Kind, Mark, Token};
use limbo_tree::Name;

/// Where the first token stands.
pub fn place(tokens: &[Token]) -> Span {
    match tokens {
        [first, ..] => first.span,
        [] => Span {
            line: 1,
            col: 1,
            len: 0,
        },
    }
}

/// What stands behind the sign, where it is the first token.
pub fn after_mark(mark: Mark, tokens: &[Token]) -> Option<&[Token]>
    ensures { MatchOption result (reading.after_mark mark (kinds tokens.now) ≡ None)
        (λ rest. reading.after_mark mark (kinds tokens.now) ≡ Some (kinds rest.now)) }
{
    match tokens {
        [
            Token {
                kind: Kind::Mark(found),
                ..
            },
            rest @ ..,
        ] if *found == mark => Some(rest),
        _ => None,
    }
}

/// What stands behind the keyword, where it is the first token.
pub fn after_key(key: Key, tokens: &[Token]) -> Option<&[Token]>
    ensures { MatchOption result (reading.after_key key (kinds tokens.now) ≡ None)
        (λ rest. reading.after_key key (kinds tokens.now) ≡ Some (kinds rest.now)) }
{
    match tokens {
        [
            Token {
                kind: Kind::Key(found),
                ..
            },
            rest @ ..,
        ] if *found == key => Some(rest),
        _ => None,
    }
}

/// What stands behind the sign.
///
/// # Errors
/// `Syntax` where it isn't the first token.
pub fn expect_mark(mark: Mark, tokens: &[Token]) -> Result<&[Token], ReadError>
    ensures { Gives (λ rest. kinds rest.now) result (reading.expect_mark mark (kinds tokens.now)) }
{
    match after_mark(mark, tokens) {
        Some(rest) => Ok(rest),
        None => Err(syntax(tokens)),
    }
}

/// What stands behind the keyword.
///
/// # Errors
/// `Syntax` where it isn't the first token.
pub fn expect_key(key: Key, tokens: &[Token]) -> Result<&[Token], ReadError>
    ensures { Gives (λ rest. kinds rest.now) result (reading.expect_key key (kinds tokens.now)) }
{
    match after_key(key, tokens) {
        Some(rest) => Ok(rest),
        None => Err(syntax(tokens)),
    }
}

/// No alternative of the grammar goes on here.
pub fn syntax(tokens: &[Token]) -> ReadError
    ensures { result ≡ ReadError.Fault (Fault.Syntax (length (kinds tokens.now))) }
{
    ReadError::Fault {
        fault: Fault::Syntax { left: tokens.len() },
    }
}

/// The tree would nest too deep here.
pub fn too_deep(tokens: &[Token]) -> ReadError
    ensures { result ≡ ReadError.Fault (Fault.TooDeep (length (kinds tokens.now))) }
{
    ReadError::Fault {
        fault: Fault::TooDeep { left: tokens.len() },
    }
}

/// The name that is the first token, and what stands behind it.
///
/// # Errors
/// `Syntax` where the first token is no name; `NoMemory`.
pub fn expect_name(tokens: &[Token]) -> Result<(Name, &[Token]), ReadError>
    ensures { Gives (λ x. (x.0.text, kinds x.1.now)) result (reading.expect_name (kinds tokens.now)) }
{
    match tokens {
        [
            Token {
                kind: Kind::Name(text),
                span,
            },
            rest @ ..,
        ] => Ok((
            Name {
                text: text.clone()?,
                span: *span,
            },
            rest,
        )),
        _ => Err(syntax(tokens)),
    }
}
