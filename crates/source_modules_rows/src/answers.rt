//! What is told of a row. Trees aren't let go, as the program ends soon.

use crate::source::{files, source, text};
use inf_text::Text;
use limbo_includes::Included;
use limbo_lexer::lex;
use limbo_parser::parse;
use limbo_tree::Source;
use source_files::read_included;
use source_modules::{ModuleFault, check_source};
use std::alloc::{AllocError, Global};
use std::mem::forget;
use typed_part::runs;

// What is told of a source with the texts that it includes.
fn checked(
    alloc: Global,
    path: &Text,
    source: &Source,
    texts: &[Included],
) -> Result<String, AllocError> {
    match check_source(alloc, path, source, texts) {
        Err(ModuleFault::NoMemory) => Err(AllocError),
        Err(ModuleFault::Refused { number, .. }) => format!(in alloc; "{number}"),
        Ok(checked) => {
            let told = if !checked.begins {
                "45"
            } else if runs(&checked.module) {
                "ok"
            } else {
                "25"
            };
            forget(checked);
            format!(in alloc; "{told}")
        }
    }
}

// What is told of a source.
fn told(alloc: Global, source: &Source) -> Result<String, AllocError> {
    let path = text(alloc, "t.b")?;
    let mut files = files(alloc);
    let Ok(texts) = read_included(alloc, &path, source, &mut files) else {
        return format!(in alloc; "a text that isn't read");
    };
    let told = checked(alloc, &path, source, &texts);
    forget(texts);
    told
}

/// The answer to a line.
///
/// # Errors
/// Want of memory.
pub fn answer(alloc: Global, line: &str) -> Result<String, AllocError> {
    let source = source(alloc, line)?;
    let tokens = match lex(alloc, source.as_bytes()) {
        Ok(tokens) => tokens,
        Err(fault) => return format!(in alloc; "{}", fault.number()),
    };
    let tree = match parse(alloc, &tokens, false) {
        Ok(tree) => tree,
        Err(fault) => return format!(in alloc; "{}", fault.number()),
    };
    let told = told(alloc, &tree);
    forget(tree);
    told
}
