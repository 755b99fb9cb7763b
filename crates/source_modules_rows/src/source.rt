//! The source that a row is.

use inf_ports::MemTree;
use inf_text::{Seq, Text};
use std::alloc::{AllocError, Global};

// What stands before the declarations of a row.
const BEFORE: &str = "implement T; include \"sys.m\"; sys: Sys; include \"draw.m\"; \
T: module { init: fn(c: ref Draw->Context, a: list of string); }; ";

// What stands between them and the body of `init`.
const BETWEEN: &str = " init(c: ref Draw->Context, a: list of string) { sys = load Sys Sys->PATH; ";

/// The source of a row.
///
/// # Errors
/// Want of memory.
pub fn source(alloc: Global, row: &str) -> Result<String, AllocError> {
    match row.split_once("~") {
        Some((declarations, body)) => {
            format!(in alloc; "{BEFORE}{declarations}{BETWEEN}{body} }}")
        }
        None => format!(in alloc; "{row}"),
    }
}

/// The text of a spelling.
///
/// # Errors
/// Want of memory.
pub fn text(alloc: Global, spelling: &str) -> Result<Text, AllocError> {
    let mut chars = Vec::new(alloc);
    for c in spelling.chars() {
        chars.push(c)?;
    }
    Ok(Text::from_vec(chars))
}

/// No files stand beside it: `sys.m` and `draw.m` are built in.
pub fn files(alloc: Global) -> MemTree {
    let none: Vec<(Text, Seq<u8>)> = Vec::new(alloc);
    MemTree::new(none, Vec::new(alloc))
}
