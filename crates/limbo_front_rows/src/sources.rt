//! Sources.

ghost use Rattle.std.specs.Prelude.{◌≡◌, MatchOption, slice_get};

use crate::tokens::refusal;
use inf_text::Span;
use limbo_lexer::{Token, lex};
use limbo_parser::{ParseFault, parse};
use std::alloc::{AllocError, Global};

// Where the token with this number stands, or the first place where there is none.
fn place(tokens: &[Token], number: usize) -> Span
    ensures { MatchOption (slice_get tokens.now number) (result ≡ record { line = 1; col = 1; len = 0 }) (λ token. result ≡ token.span) }
{
    match tokens.get(number) {
        Some(token) => token.span,
        None => Span {
            line: 1,
            col: 1,
            len: 0,
        },
    }
}

// The number of a refusal and its place.
fn placed(alloc: Global, number: u32, span: Span) -> Result<String, AllocError> {
    format!(in alloc; "{number} {}:{}", span.line, span.col)
}

// What is said of tokens that have no tree.
fn unparsed(alloc: Global, tokens: &[Token], fault: ParseFault) -> Result<String, AllocError> {
    match fault {
        ParseFault::NoMemory => Err(AllocError),
        ParseFault::Syntax { token } => placed(alloc, 30, place(tokens, token)),
        ParseFault::TooDeep { token } => placed(alloc, 31, place(tokens, token)),
    }
}

/// What the parser says of a source or of an included text.
///
/// # Errors
/// Want of memory.
pub fn source_row(alloc: Global, source: &[u8], included: bool) -> Result<String, AllocError> {
    let tokens = match lex(alloc, source) {
        Ok(tokens) => tokens,
        Err(fault) => return refusal(alloc, fault),
    };
    match parse(alloc, &tokens, included) {
        Ok(_) => format!(in alloc; "ok"),
        Err(fault) => unparsed(alloc, &tokens, fault),
    }
}
