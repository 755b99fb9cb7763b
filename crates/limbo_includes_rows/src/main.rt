//! Rows of sources and of the texts that they include: a test of `limbo_includes` whose answers are data.
//!
//! Each line of the input is a row of texts, parted by `;`: a path, `=`, and words that are parted by blanks. The word `d` stands
//! for a declaration, any other for an include of that name. The first text is the given source. Each line of the output is the
//! paths of the texts in which the declarations stand, in order, or the number of the refusal and where it stands.
#![tactic(auto)]

use inf_text::{Span, Text};
use limbo_includes::{IncludeFault, Included, Standing, flatten};
use limbo_tree::{Decl, Name, Source, Top};
use std::alloc::{AllocError, Global};
use std::io;

/// The text of a spelling.
fn text(alloc: Global, spelling: &str) -> Result<Text, AllocError> {
    let mut chars = Vec::new(alloc);
    for c in spelling.chars() {
        chars.push(c)?;
    }
    Ok(Text::from_vec(chars))
}

/// A text as it is written.
fn shown(alloc: Global, text: &Text) -> Result<String, AllocError> {
    let mut written = String::new(alloc);
    for c in text.as_slice() {
        written.push(*c)?;
    }
    Ok(written)
}

/// The declaration or the include of a word.
fn top(alloc: Global, word: &str, span: Span) -> Result<Top, AllocError> {
    if word != "d" {
        return Ok(Top::Include {
            path: text(alloc, word)?,
            span,
        });
    }
    let module = Name {
        text: Text::new(alloc),
        span,
    };
    let decl = Decl::Import {
        names: Vec::new(alloc),
        module,
        span,
    };
    Ok(Top::Declare {
        decl: Box::new(alloc, decl)?,
    })
}

/// The text of these words, each on a line of its own.
fn source(alloc: Global, words: &str) -> Result<Source, AllocError> {
    let mut tops = Vec::new(alloc);
    for (number, word) in words.split(' ').enumerate() {
        let span = Span {
            line: (number % 1000) as u32 + 1,
            col: 1,
            len: 0,
        };
        if word != "" {
            tops.push(top(alloc, word, span)?)?;
        }
    }
    Ok(Source {
        implements: None,
        tops,
    })
}

/// The paths of a row's declarations.
fn paths(alloc: Global, row: &[Standing<'_>]) -> Result<String, AllocError> {
    let mut all = format!(in alloc; "row:")?;
    for standing in row {
        all.push(' ')?;
        all.push_str(shown(alloc, standing.path)?.as_str())?;
    }
    Ok(all)
}

/// The row of a source, or the number of its refusal and where it stands.
fn told(
    alloc: Global,
    path: &Text,
    source: &Source,
    included: &[Included],
) -> Result<String, AllocError> {
    match flatten(alloc, path, source, included) {
        Ok(row) => paths(alloc, &row),
        Err(IncludeFault::NoInclude { path, at }) => {
            format!(in alloc; "40 at {}:{}", shown(alloc, &path)?, at.line)
        }
        Err(IncludeFault::Twice { path, at }) => {
            format!(in alloc; "41 at {}:{}", shown(alloc, &path)?, at.line)
        }
        Err(IncludeFault::TooDeep) => format!(in alloc; "44"),
        Err(IncludeFault::NoMemory) => format!(in alloc; "no memory"),
    }
}

/// The answer to a line.
fn answer(alloc: Global, line: &str) -> Result<String, AllocError> {
    let mut texts = Vec::new(alloc);
    for part in line.split(';') {
        if let Some((path, words)) = part.split_once('=') {
            texts.push(Included {
                path: text(alloc, path)?,
                tree: source(alloc, words)?,
            })?;
        }
    }
    match texts.split_first() {
        Some((first, included)) => told(alloc, &first.path, &first.tree, included),
        None => format!(in alloc; "no source"),
    }
}

fn main(rt: HostRuntime) -> io::Result<()> {
    for line in rt.lines(rt.alloc()) {
        let answer = answer(rt.alloc(), line?.as_str())?;
        println!(rt; "{answer}")?;
    }
    Ok(())
}
