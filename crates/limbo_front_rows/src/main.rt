//! What lines come to in the front end of the compiler, for rows that are written out by hand: the test of the crates from `inf_text`
//! to `limbo_parser`, whose table is data.
//!
//! Each line of the input is a kind and a text, in which a backquote stands for a newline. Printed is
//! - for `lex` the tokens of the text as a source;
//! - for `source`, or `included` for an included text, `ok` where it has a tree;
//! - for `newlines` the tokens of so many newlines;
//! - for `utf8` and `lossy` the characters that bytes in hexadecimal spell, by their numbers;
//! - for `number` the number at the front of the text;
//!
//! and in place of each of them the number of a refusal and where it stands.
#![tactic(auto)]

mod sources;
mod texts;
mod tokens;

use crate::sources::source_row;
use crate::texts::{lossy_row, number_row, utf8_row};
use crate::tokens::{newlines_row, token_row};
use std::alloc::{AllocError, Global};
use std::io;

// A text in which each backquote is a newline.
fn with_newlines(alloc: Global, text: &str) -> Result<Vec<u8>, AllocError> {
    text.bytes()
        .map(|b| if b == b'`' { b'\n' } else { b })
        .collect(alloc)
}

// What is printed for a row.
fn answer(alloc: Global, kind: &str, text: &str) -> Result<String, AllocError> {
    let bytes = with_newlines(alloc, text)?;
    match kind {
        "lex" => token_row(alloc, &bytes),
        "source" => source_row(alloc, &bytes, false),
        "included" => source_row(alloc, &bytes, true),
        "newlines" => newlines_row(alloc, text),
        "utf8" => utf8_row(alloc, text),
        "lossy" => lossy_row(alloc, text),
        "number" => number_row(alloc, &bytes),
        _ => format!(in alloc; "no such kind"),
    }
}

fn main(rt: HostRuntime) -> io::Result<()> {
    for line in rt.lines(rt.alloc()) {
        let line = line?;
        let (kind, text) = line.as_str().split_once(' ').unwrap_or(("", ""));
        let told = answer(rt.alloc(), kind, text)?;
        println!(rt; "{told}")?;
    }
    Ok(())
}
