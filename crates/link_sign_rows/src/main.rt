//! Rows of functions, texts and signatures that were written out by hand: a test of `link_sign` whose answers are data.
//!
//! A line `adt` or `module` of the input adds to the table of adts or of module types, `new` begins another table. A line `fn`
//! has a name and a type, and is answered by the text of the type and its signature. A line `fold` has a text and is answered by
//! what it folds to; a line `clash` has texts, with blanks between them, and is answered by the first that clash. A line `chain`
//! has a number, and is answered by the length of the text and the signature of a function of the first of so many adts, each of
//! which has a `ref` of the next one as its field. Types are written behind the types that they are of: `byte array`.
#![tactic(auto)]

mod naming;
mod reading;

use crate::naming::are_named;
use crate::reading::{read_adt, read_fn, text};
use inf_text::Text;
use limbo_adts::Adts;
use limbo_layout::{AdtDef, AdtsFault, Field};
use limbo_types::{FnTy, Ty};
use link_sign::{Clash, clash, fold_text, sign, sign_text};
use std::alloc::{AllocError, Global};
use std::io;

// What is told of a function's type: its text and its signature.
fn told(alloc: Global, adts: &Adts, f: &FnTy) -> Result<String, AllocError> {
    let text = sign_text(alloc, adts, f)?;
    let sign = sign(alloc, adts, f)?;
    if text.len() > 1000 {
        return format!(in alloc; "{} bytes {sign:08X}", text.len());
    }
    match String::from_utf8(text) {
        Ok(text) => format!(in alloc; "{text} {sign:08X}"),
        Err(_) => format!(in alloc; "no text"),
    }
}

// The same over a table of these adts and modules.
fn answer_fn(
    alloc: Global,
    defs: Vec<AdtDef>,
    modules: Vec<Text>,
    f: &FnTy,
) -> Result<String, AllocError> {
    if defs.len() > 100_000 || !are_named(&defs, modules.len()) {
        return format!(in alloc; "a number that names nothing");
    }
    match Adts::new(alloc, defs, modules) {
        Ok(adts) => told(alloc, &adts, f),
        Err(AdtsFault::TooLarge { adt }) => format!(in alloc; "too large: {adt}"),
        Err(AdtsFault::NoMemory) => format!(in alloc; "no memory"),
    }
}

// The same over a table that these lines declare.
fn answer_row(alloc: Global, lines: &str, row: &str) -> Result<String, AllocError> {
    let mut defs = Vec::new(alloc);
    let mut modules = Vec::new(alloc);
    for line in lines.split('\n') {
        if let Some(adt) = line.strip_prefix("adt ") {
            defs.push(read_adt(alloc, adt)?)?;
        }
        if let Some(name) = line.strip_prefix("module ") {
            modules.push(text(alloc, name)?)?;
        }
    }
    let (name, ty) = row.split_once(',').unwrap_or((row, ""));
    let told = answer_fn(alloc, defs, modules, &read_fn(alloc, ty)?)?;
    format!(in alloc; "{name} {told}")
}

// So many adts, each with a `ref` of the next one.
fn answer_chain(alloc: Global, count: u32) -> Result<String, AllocError> {
    let mut defs = Vec::new(alloc);
    for number in 0..count {
        let next = if number + 1 < count { number + 1 } else { 0 };
        let field = Field {
            name: text(alloc, "next")?,
            ty: Ty::RefAdt(next),
        };
        defs.push(AdtDef {
            name: Text::new(alloc),
            fields: vec![in alloc; field]?,
            picks: Vec::new(alloc),
        })?;
    }
    let f = FnTy {
        args: vec![in alloc; Ty::RefAdt(0)]?,
        answer: Ty::Nothing,
    };
    answer_fn(alloc, defs, Vec::new(alloc), &f)
}

fn shown(alloc: Global, clash: &Clash) -> Result<String, AllocError> {
    let mut all = format!(in alloc; "")?;
    for byte in clash.first.iter() {
        all.push(char::from(*byte))?;
    }
    all.push(' ')?;
    for byte in clash.second.iter() {
        all.push(char::from(*byte))?;
    }
    format!(in alloc; "{all} {:08X}", clash.sign)
}

fn answer_clash(alloc: Global, texts: &[Vec<u8>]) -> Result<String, AllocError> {
    match clash(alloc, texts)? {
        Some(clash) => shown(alloc, &clash),
        None => format!(in alloc; "none"),
    }
}

fn texts(alloc: Global, row: &str) -> Result<Vec<Vec<u8>>, AllocError> {
    let mut texts = Vec::new(alloc);
    for word in row.split(' ') {
        texts.push(Vec::from_slice(alloc, word.as_bytes())?)?;
    }
    Ok(texts)
}

// So many texts, the numbers from 0 on.
fn numbers(alloc: Global, count: u32) -> Result<Vec<Vec<u8>>, AllocError> {
    let mut texts = Vec::new(alloc);
    for number in 0..count {
        texts.push(format!(in alloc; "{number}")?.into_bytes())?;
    }
    Ok(texts)
}

/// The answer to a line, where it has one.
fn answer(alloc: Global, lines: &str, line: &str) -> Result<Option<String>, AllocError> {
    let (kind, row) = line.split_once(' ').unwrap_or((line, ""));
    Ok(match kind {
        "fn" => Some(answer_row(alloc, lines, row)?),
        "fold" => Some(format!(in alloc; "{:08X}", fold_text(row.as_bytes()))?),
        "clash" => Some(answer_clash(alloc, &texts(alloc, row)?)?),
        "numbers" => Some(answer_clash(alloc, &numbers(alloc, row.parse::<u32>().unwrap_or(0))?)?),
        "chain" => Some(answer_chain(alloc, row.parse::<u32>().unwrap_or(0))?),
        _ => None,
    })
}

fn main(rt: HostRuntime) -> io::Result<()> {
    let alloc = rt.alloc();
    let mut lines = String::new(alloc);
    for line in rt.lines(alloc) {
        let line = line?;
        match answer(alloc, lines.as_str(), line.as_str())? {
            Some(answer) => println!(rt; "{answer}")?,
            None => {
                if line.as_str() == "new" {
                    lines = String::new(alloc);
                }
                lines.push_str(line.as_str())?;
                lines.push('\n')?;
            }
        }
    }
    Ok(())
}
