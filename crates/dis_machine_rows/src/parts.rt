//! Types and data of programs, as lines of text.

use crate::assembly::{code_of, number};
use crate::objects::assembled;
use dis_file::{Item, Object, TypeDesc};
use inf_text::Seq;
use std::alloc::{AllocError, Global};
use std::process::Abort;
use std::test::Fail;

// The bits of eight words, the first one the highest.
fn bits_of(letters: &[u8]) -> u8 {
    let (mut bits, mut bit) = (0_u8, 0x80_u8);
    for letter in letters {
        if *letter == b'r' {
            bits |= bit;
        }
        bit >>= 1;
    }
    bits
}

// A type: a byte, `b`, or words, of which `r` is a reference.
fn type_of(alloc: Global, letters: &str) -> Result<TypeDesc, AllocError> {
    let mut map = Vec::new(alloc);
    if letters == "b" {
        return Ok(TypeDesc {
            size: 1,
            map: Seq::from_vec(map),
        });
    }
    let mut size = 0_u32;
    for eight in letters.as_bytes().chunks(8) {
        map.push(bits_of(eight))?;
    }
    for _ in letters.as_bytes() {
        size = size.wrapping_add(4);
    }
    let map = Seq::from_vec(map);
    Ok(TypeDesc { size, map })
}

// What stands behind the name of a line.
fn named<'a>(program: &'a str, name: &str) -> &'a str {
    for line in program.lines() {
        if let Some(rest) = line.strip_prefix(name) {
            return rest;
        }
    }
    ""
}

// Type 0, the data: four words, and those of the line `.data`. Type 1, the frame: linkage, two words of prints, and those of the line
// `.frame`. Then the frames of prints, of a number and of a text. From 4 on the lines `.type`.
fn types_of(alloc: Global, program: &str) -> Result<Seq<TypeDesc>, AllocError> {
    let data = format!(in alloc; "rrrr{}", named(program, ".data "))?;
    let frame = format!(in alloc; "........ww{}", named(program, ".frame "))?;
    let mut types = Vec::new(alloc);
    for letters in [data.as_str(), frame.as_str(), "........rw", "........rr"] {
        types.push(type_of(alloc, letters)?)?;
    }
    for line in program.lines() {
        if let Some(letters) = line.strip_prefix(".type ") {
            types.push(type_of(alloc, letters)?)?;
        }
    }
    Ok(Seq::from_vec(types))
}

// The kind of an item, by the name of its line.
fn kind_of(name: &str) -> u8 {
    match name {
        ".bytes" => 1,
        ".words" => 2,
        ".text" => 3,
        ".reals" => 4,
        ".array" => 5,
        ".into" => 6,
        ".back" => 7,
        ".bigs" => 8,
        _ => 0,
    }
}

// The bytes of an item: a string is what it is, and numbers take one, four or eight.
fn content_of(
    rt: &impl Abort,
    alloc: Global,
    kind: u8,
    words: &str,
) -> Result<Vec<u8>, AllocError> {
    if kind == 3 {
        return Vec::from_slice(alloc, words.as_bytes());
    }
    let mut content = Vec::new(alloc);
    for word in words.split(' ').filter(|word| !word.is_empty()) {
        let bytes = word.parse::<i64>().expect(rt, "a number").to_be_bytes();
        match kind {
            1 => content.extend_from_slice(&bytes[7..])?,
            4 | 8 => content.extend_from_slice(&bytes)?,
            _ => content.extend_from_slice(&bytes[4..])?,
        }
    }
    Ok(content)
}

// An item of this kind at an offset.
fn item(
    rt: &impl Abort,
    alloc: Global,
    kind: u8,
    offset: &str,
    words: &str,
) -> Result<Item, AllocError> {
    let content = content_of(rt, alloc, kind, words)?;
    Ok(Item {
        kind,
        count: 1,
        offset: number(rt, offset).unsigned_abs(),
        content: Seq::from_vec(content),
    })
}

// The path of Sys, the formats of a number and of a text, and the items of the program's lines.
fn items_of(rt: &impl Abort, alloc: Global, program: &str) -> Result<Seq<Item>, AllocError> {
    let mut items = Vec::new(alloc);
    for (offset, text) in [("0", "$Sys"), ("8", "%d "), ("12", "%s ")] {
        items.push(item(rt, alloc, 3, offset, text)?)?;
    }
    for line in program.lines() {
        let (name, rest) = line.split_once(' ').unwrap_or((line, ""));
        let (offset, words) = rest.split_once(' ').unwrap_or((rest, ""));
        let kind = kind_of(name);
        if kind != 0 {
            items.push(item(rt, alloc, kind, offset, words)?)?;
        }
    }
    Ok(Seq::from_vec(items))
}

// The object of a program.
pub(crate) fn object_of(rt: &impl Abort, alloc: Global, program: &str) -> Result<Object, Fail> {
    let code = code_of(rt, alloc, program)?;
    let types = types_of(alloc, program)?;
    let items = items_of(rt, alloc, program)?;
    assembled(alloc, code, types, items)
}
