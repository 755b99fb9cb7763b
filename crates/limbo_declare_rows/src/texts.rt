//! Texts, and how they are written.

use inf_ports::MemTree;
use inf_text::{Seq, Span, Text};
use limbo_constants::Constant;
use std::alloc::{AllocError, Global};

/// The text of a spelling.
///
/// # Errors
/// Want of memory.
pub fn text(alloc: Global, spelling: &str) -> Result<Text, AllocError> {
    let mut chars = Vec::new(alloc);
    for c in spelling.chars() {
        chars.push(c)?;
    }
    Ok(Text::from_vec(chars))
}

/// A text as it is written.
///
/// # Errors
/// Want of memory.
pub fn shown(alloc: Global, text: &Text) -> Result<String, AllocError> {
    let mut written = String::new(alloc);
    for c in text.as_slice() {
        written.push(*c)?;
    }
    Ok(written)
}

/// A constant as it is written, a string without quotes.
///
/// # Errors
/// Want of memory.
pub fn value(alloc: Global, constant: &Constant) -> Result<String, AllocError> {
    match constant {
        Constant::Number(number) => format!(in alloc; "{}", number.value()),
        Constant::Chars(chars) => shown(alloc, chars),
    }
}

/// A refusal, and where it stands.
///
/// # Errors
/// Want of memory.
pub fn refusal(alloc: Global, number: u32, path: &Text, at: Span) -> Result<String, AllocError> {
    format!(in alloc; "{number} {}:{}:{}", shown(alloc, path)?, at.line, at.col)
}

/// The files of these parts, of which a `@` stands between two: each has a name, a blank and what the file holds.
///
/// # Errors
/// Want of memory.
pub fn files(alloc: Global, parts: &str) -> Result<MemTree, AllocError> {
    let mut files = Vec::new(alloc);
    for part in parts.split('@') {
        if let Some((name, held)) = part.split_once(' ') {
            let bytes = Vec::from_slice(alloc, held.as_bytes())?;
            files.push((text(alloc, name)?, Seq::from_vec(bytes)))?;
        }
    }
    Ok(MemTree::new(files, Vec::new(alloc)))
}
