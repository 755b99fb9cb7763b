//! Types, adts and functions as rows write them.

use inf_text::Text;
use limbo_layout::{AdtDef, Field, Variant};
use limbo_types::{FnTy, Ty};
use std::alloc::{AllocError, Global};

/// The text of a spelling.
pub fn text(alloc: Global, spelling: &str) -> Result<Text, AllocError> {
    let mut chars = Vec::new(alloc);
    for c in spelling.chars() {
        chars.push(c)?;
    }
    Ok(Text::from_vec(chars))
}

fn number(word: &str, front: &str) -> Option<u32> {
    word.strip_prefix(front)?.parse::<u32>().ok()
}

// The type of a word that names an adt, a variant or a module by number.
fn numbered(word: &str) -> Option<Ty> {
    if let Some((adt, variant)) = word.split_once('.') {
        return Some(Ty::RefPick {
            adt: number(adt, "pick")?,
            variant: number(variant, "")?,
        });
    }
    if let Some(adt) = number(word, "adt") {
        return Some(Ty::Adt(adt));
    }
    if let Some(adt) = number(word, "ref") {
        return Some(Ty::RefAdt(adt));
    }
    Some(Ty::Module(number(word, "module")?))
}

// The type of a word alone.
fn single(word: &str) -> Option<Ty> {
    match word {
        "byte" => Some(Ty::Byte),
        "int" => Some(Ty::Int),
        "big" => Some(Ty::Big),
        "string" => Some(Ty::Chars),
        "nothing" => Some(Ty::Nothing),
        "nil" => Some(Ty::Nil),
        _ => numbered(word),
    }
}

// The last so many types, in their order, as a tuple.
fn tuple(alloc: Global, types: &mut Vec<Ty>, count: u32) -> Result<Ty, AllocError> {
    let mut parts = Vec::new(alloc);
    for _ in 0..count {
        if let Some(part) = types.pop() {
            parts.push(part)?;
        }
    }
    parts.reverse();
    Ok(Ty::Tuple(parts))
}

// A word behind the types that it is of.
fn put_word(alloc: Global, types: &mut Vec<Ty>, word: &str) -> Result<(), AllocError> {
    let made = match word {
        "array" => match types.pop() {
            Some(item) => Ty::Array(Box::new(alloc, item)?),
            None => return Ok(()),
        },
        "list" => match types.pop() {
            Some(item) => Ty::List(Box::new(alloc, item)?),
            None => return Ok(()),
        },
        "chan" => match types.pop() {
            Some(item) => Ty::Chan(Box::new(alloc, item)?),
            None => return Ok(()),
        },
        _ => match number(word, "tuple") {
            Some(count) => tuple(alloc, types, count)?,
            None => match single(word) {
                Some(t) => t,
                None => return Ok(()),
            },
        },
    };
    types.push(made)?;
    Ok(())
}

// The type that words write, each behind the types that it is of.
fn read_type(alloc: Global, words: &str) -> Result<Ty, AllocError> {
    let mut types = Vec::new(alloc);
    for word in words.split(' ') {
        put_word(alloc, &mut types, word)?;
    }
    Ok(types.pop().unwrap_or(Ty::Nothing))
}

// Fields behind a name: each with its own name and the words of its type.
fn read_fields(alloc: Global, parts: &str) -> Result<Vec<Field>, AllocError> {
    let mut fields = Vec::new(alloc);
    for part in parts.split(',') {
        if let Some((name, words)) = part.split_once(' ') {
            fields.push(Field {
                name: text(alloc, name)?,
                ty: read_type(alloc, words)?,
            })?;
        }
    }
    Ok(fields)
}

/// An adt: its name, and behind commas its common fields. A variant, with its fields, stands behind a `|`.
pub fn read_adt(alloc: Global, row: &str) -> Result<AdtDef, AllocError> {
    let mut picks = Vec::new(alloc);
    let mut parts = row.split('|');
    let (name, fields) = parts
        .next()
        .unwrap_or("")
        .split_once(',')
        .unwrap_or(("", ""));
    for part in parts {
        let (variant, own) = part.split_once(',').unwrap_or((part, ""));
        picks.push(Variant {
            name: text(alloc, variant)?,
            fields: read_fields(alloc, own)?,
        })?;
    }
    Ok(AdtDef {
        name: text(alloc, name)?,
        fields: read_fields(alloc, fields)?,
        picks,
    })
}

/// The type of a function: the types of its arguments, and the one of its answer, with commas between them.
pub fn read_fn(alloc: Global, row: &str) -> Result<FnTy, AllocError> {
    let mut args = Vec::new(alloc);
    for part in row.split(',') {
        args.push(read_type(alloc, part)?)?;
    }
    let answer = args.pop().unwrap_or(Ty::Nothing);
    Ok(FnTy { args, answer })
}
