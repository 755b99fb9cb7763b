//! Texts and numbers.

use inf_text::{Text, TextFault, decimal};
use std::alloc::{AllocError, Global};

// The characters of a text by their numbers.
fn numbers(alloc: Global, text: &Text) -> Result<String, AllocError> {
    let mut line = String::new(alloc);
    for c in text.as_slice() {
        let number = u32::from(*c);
        line.push_str(format!(in alloc; " {number}")?.as_str())?;
    }
    Ok(line)
}

/// The characters that bytes spell, and the bytes again; or the first bad place.
///
/// # Errors
/// Want of memory.
pub fn utf8_row(alloc: Global, digits: &str) -> Result<String, AllocError> {
    let Ok(bytes) = hex::decode(alloc, digits) else {
        return format!(in alloc; "no bytes");
    };
    match Text::from_utf8(alloc, &bytes) {
        Ok(text) => {
            let again = text.to_utf8(alloc)? == bytes;
            let line = numbers(alloc, &text)?;
            format!(in alloc; "{} {again}{line}", text.len())
        }
        Err(TextFault::NoMemory) => Err(AllocError),
        Err(TextFault::BadUtf8 { at }) => format!(in alloc; "1 {at}"),
    }
}

/// The characters that bytes are read as, which may be ill-formed.
///
/// # Errors
/// Want of memory.
pub fn lossy_row(alloc: Global, digits: &str) -> Result<String, AllocError> {
    let Ok(bytes) = hex::decode(alloc, digits) else {
        return format!(in alloc; "no bytes");
    };
    let text = Text::from_utf8_lossy(alloc, &bytes)?;
    let line = numbers(alloc, &text)?;
    format!(in alloc; "{}{line}", text.len())
}

/// The number at the front of a text.
///
/// # Errors
/// Want of memory.
pub fn number_row(alloc: Global, bytes: &[u8]) -> Result<String, AllocError> {
    let text = Text::from_utf8_lossy(alloc, bytes)?;
    let spelled = decimal(alloc, text.read_decimal())?;
    let chars = spelled.as_slice().iter().copied();
    chars.collect(alloc)
}
