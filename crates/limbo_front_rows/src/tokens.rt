//! Tokens, written out: a name behind `@`, the text of a string behind `"` with its characters below a space by their numbers, and a
//! wide number before `w`.

use inf_text::{Span, Text};
use limbo_lexer::{Kind, LexFault, Token, lex};
use std::alloc::{AllocError, Global};

// Adds the characters of a text.
fn push(alloc: Global, line: &mut String, text: &Text) -> Result<(), AllocError> {
    for c in text.as_slice() {
        if *c < ' ' {
            let number = u32::from(*c);
            line.push_str(format!(in alloc; "<{number}>")?.as_str())?;
        } else {
            line.push(*c)?;
        }
    }
    Ok(())
}

// Adds a token.
fn push_kind(alloc: Global, line: &mut String, kind: &Kind) -> Result<(), AllocError> {
    match kind {
        Kind::Name(text) => {
            line.push('@')?;
            push(alloc, line, text)
        }
        Kind::Key(key) => line.push_str(format!(in alloc; "{key:?}")?.as_str()),
        Kind::Number { value, wide } => {
            let mark = if *wide { "w" } else { "" };
            line.push_str(format!(in alloc; "{value}{mark}")?.as_str())
        }
        Kind::Chars(text) => {
            line.push('"')?;
            push(alloc, line, text)
        }
        Kind::Mark(mark) => line.push_str(format!(in alloc; "{mark:?}")?.as_str()),
        Kind::End => line.push('.'),
    }
}

// The tokens, one behind the other.
fn kinds(alloc: Global, tokens: &[Token]) -> Result<String, AllocError> {
    let mut line = String::new(alloc);
    for token in tokens {
        if line.len() > 0 {
            line.push(' ')?;
        }
        push_kind(alloc, &mut line, &token.kind)?;
    }
    Ok(line)
}

// The number of a refusal and its place.
fn placed(alloc: Global, number: u32, span: Span) -> Result<String, AllocError> {
    let Span { line, col, len } = span;
    format!(in alloc; "{number} {line}:{col}+{len}")
}

/// A refusal of a text that has no tokens.
///
/// # Errors
/// Want of memory.
pub fn refusal(alloc: Global, fault: LexFault) -> Result<String, AllocError> {
    match fault {
        LexFault::NoMemory => Err(AllocError),
        LexFault::BadUtf8 { at } => format!(in alloc; "1 {at}"),
        LexFault::BadChar(span) => placed(alloc, 20, span),
        LexFault::BadEscape(span) => placed(alloc, 21, span),
        LexFault::NumberTooWide(span) => placed(alloc, 22, span),
        LexFault::Unclosed(span) => placed(alloc, 23, span),
        LexFault::SourceTooLong => format!(in alloc; "24"),
    }
}

/// The tokens of a source.
///
/// # Errors
/// Want of memory.
pub fn token_row(alloc: Global, source: &[u8]) -> Result<String, AllocError> {
    match lex(alloc, source) {
        Ok(tokens) => kinds(alloc, &tokens),
        Err(fault) => refusal(alloc, fault),
    }
}

/// The tokens of a source of so many newlines.
///
/// # Errors
/// Want of memory.
pub fn newlines_row(alloc: Global, count: &str) -> Result<String, AllocError> {
    let Ok(count) = count.parse::<usize>() else {
        return format!(in alloc; "no number");
    };
    let source = vec![in alloc; b'\n'; count]?;
    token_row(alloc, &source)
}
