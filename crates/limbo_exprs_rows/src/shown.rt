//! Types, as they are written.

use inf_text::Text;
use limbo_context::Context;
use limbo_types::Ty;
use std::alloc::{AllocError, Global};

/// A text as it is written.
///
/// # Errors
/// Want of memory.
pub fn shown(alloc: Global, text: &Text) -> Result<String, AllocError> {
    let mut written = String::new(alloc);
    for c in text.as_slice() {
        written.push(*c)?;
    }
    Ok(written)
}

// An adt's name.
fn adt(alloc: Global, context: &Context, number: u32) -> Result<String, AllocError> {
    match context.adts.defs().get(number as usize) {
        Some(def) => shown(alloc, &def.name),
        None => format!(in alloc; "?"),
    }
}

// The name of a variant.
fn variant(
    alloc: Global,
    context: &Context,
    number: u32,
    variant: u32,
) -> Result<String, AllocError> {
    let name = adt(alloc, context, number)?;
    let Some(def) = context.adts.defs().get(number as usize) else {
        return Ok(name);
    };
    match def.picks.get(variant as usize) {
        Some(pick) => {
            let pick = shown(alloc, &pick.name)?;
            format!(in alloc; "{name}.{pick}")
        }
        None => Ok(name),
    }
}

// A module's name.
fn module(alloc: Global, context: &Context, number: u32) -> Result<String, AllocError> {
    match context.interfaces.get(number as usize) {
        Some(interface) => shown(alloc, &interface.name),
        None => format!(in alloc; "?"),
    }
}

// The types of a tuple.
#[cycle(types)]
fn several(alloc: Global, context: &Context, types: &[Ty]) -> Result<String, AllocError> {
    let mut written = String::new(alloc);
    for (at, t) in types.iter().enumerate() {
        if at > 0 {
            written.push_str(", ")?;
        }
        written.push_str(type_of(alloc, context, t)?.as_str())?;
    }
    Ok(written)
}

// A type behind some words.
#[cycle(types)]
fn behind(alloc: Global, context: &Context, words: &str, t: &Ty) -> Result<String, AllocError> {
    let t = type_of(alloc, context, t)?;
    format!(in alloc; "{words} {t}")
}

/// A type as a source writes it.
///
/// # Errors
/// Want of memory.
#[cycle(types)]
pub fn type_of(alloc: Global, context: &Context, t: &Ty) -> Result<String, AllocError> {
    match t {
        Ty::Byte => format!(in alloc; "byte"),
        Ty::Int => format!(in alloc; "int"),
        Ty::Big => format!(in alloc; "big"),
        Ty::Chars => format!(in alloc; "string"),
        Ty::Nothing => format!(in alloc; "nothing"),
        Ty::Nil => format!(in alloc; "nil"),
        Ty::Array(item) => behind(alloc, context, "array of", item),
        Ty::List(item) => behind(alloc, context, "list of", item),
        Ty::Chan(item) => behind(alloc, context, "chan of", item),
        Ty::Tuple(types) => {
            let types = several(alloc, context, types)?;
            format!(in alloc; "({types})")
        }
        Ty::Adt(number) => adt(alloc, context, *number),
        Ty::RefAdt(number) => {
            let name = adt(alloc, context, *number)?;
            format!(in alloc; "ref {name}")
        }
        Ty::RefPick { adt, variant: pick } => {
            let name = variant(alloc, context, *adt, *pick)?;
            format!(in alloc; "ref {name}")
        }
        Ty::Module(number) => module(alloc, context, *number),
    }
}
