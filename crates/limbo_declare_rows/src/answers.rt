//! What is said of a source. Trees aren't let go, as the program ends soon.

use crate::texts::{files, refusal, shown, text, value};
use inf_ports::MemTree;
use inf_text::Text;
use limbo_declare::{Declarations, NameFault, declare};
use limbo_includes::{IncludeFault, Included, Standing, flatten};
use limbo_lexer::lex;
use limbo_parser::parse;
use limbo_tree::Source;
use source_files::read_included;
use std::alloc::{AllocError, Global};
use std::mem::forget;

// The constants and their values.
fn constants(alloc: Global, declared: &Declarations<'_>) -> Result<String, AllocError> {
    let mut all = format!(in alloc; "ok")?;
    for (entry, constant) in declared.table.entries.iter().zip(declared.values.iter()) {
        if let Some(constant) = constant {
            all.push(' ')?;
            all.push_str(shown(alloc, &entry.row.name.text)?.as_str())?;
            all.push('=')?;
            all.push_str(value(alloc, constant)?.as_str())?;
        }
    }
    Ok(all)
}

// What is declared, or the refusal.
fn declared(alloc: Global, source: &Source, tops: &[Standing<'_>]) -> Result<String, AllocError> {
    let Some(name) = &source.implements else {
        return format!(in alloc; "no module");
    };
    match declare(alloc, &name.text, tops) {
        Ok(declarations) => constants(alloc, &declarations),
        Err(NameFault::NoMemory) => Err(AllocError),
        Err(NameFault::Twice { path, at }) => refusal(alloc, 41, path, at),
        Err(NameFault::Unknown { path, at }) => refusal(alloc, 42, path, at),
        Err(NameFault::NoModule) => format!(in alloc; "42"),
        Err(NameFault::NotConstant { path, at }) => refusal(alloc, 43, path, at),
    }
}

// The same of a source with the texts that it includes.
fn flattened(
    alloc: Global,
    path: &Text,
    source: &Source,
    included: &[Included],
) -> Result<String, AllocError> {
    match flatten(alloc, path, source, included) {
        Ok(tops) => declared(alloc, source, &tops),
        Err(IncludeFault::NoMemory) => Err(AllocError),
        Err(IncludeFault::NoInclude { path, at }) => refusal(alloc, 40, &path, at),
        Err(IncludeFault::Twice { path, at }) => refusal(alloc, 41, &path, at),
        Err(IncludeFault::TooDeep) => format!(in alloc; "44"),
    }
}

// What is said of a source and of the files beside it.
fn said(alloc: Global, source: &Source, files: &mut MemTree) -> Result<String, AllocError> {
    let path = text(alloc, "t.b")?;
    match read_included(alloc, &path, source, files) {
        Ok(included) => {
            let said = flattened(alloc, &path, source, &included);
            forget(included);
            said
        }
        Err(_) => format!(in alloc; "a text that isn't read"),
    }
}

/// The answer to a line.
///
/// # Errors
/// Want of memory.
pub fn answer(alloc: Global, line: &str) -> Result<String, AllocError> {
    let (first, rest) = line.split_once('@').unwrap_or((line, ""));
    let source = format!(in alloc; "implement T; {first}")?;
    let mut files = files(alloc, rest)?;
    let Ok(tokens) = lex(alloc, source.as_bytes()) else {
        return format!(in alloc; "no tokens");
    };
    let Ok(tree) = parse(alloc, &tokens, false) else {
        return format!(in alloc; "no tree");
    };
    let said = said(alloc, &tree, &mut files);
    forget(tree);
    said
}
