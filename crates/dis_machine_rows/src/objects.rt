//! Small objects written by hand.

use dis_file::{Import, Item, Object, TypeDesc};
use dis_isa::{Inst, Middle, Op, Operand};
use inf_text::{Seq, Text};
use std::alloc::{AllocError, Global};
use std::test::Fail;

pub(crate) fn inst(op: Op, src: Operand, middle: Middle, dst: Operand) -> Inst {
    Inst {
        op,
        middle,
        src,
        dst,
    }
}

pub(crate) fn seq(alloc: Global, bytes: &[u8]) -> Result<Seq<u8>, AllocError> {
    Ok(Seq::from_vec(Vec::from_slice(alloc, bytes)?))
}

// The types: the data, a loaded module between two strings; the frame of `init`; the frame of a print of a format alone.
fn types(alloc: Global) -> Result<Seq<TypeDesc>, AllocError> {
    let mut types = Vec::new(alloc);
    for (size, map) in [
        (12, b"\xE0".as_slice()),
        (40, b"\0".as_slice()),
        (36, b"\0\x80".as_slice()),
    ] {
        let map = seq(alloc, map)?;
        types.push(TypeDesc { size, map })?;
    }
    Ok(Seq::from_vec(types))
}

// The strings `$Sys` at 0 and this one at 8.
pub(crate) fn items(alloc: Global, text: &[u8]) -> Result<Seq<Item>, AllocError> {
    let mut items = Vec::new(alloc);
    for (offset, content) in [(0, b"$Sys".as_slice()), (8, text)] {
        items.push(Item {
            kind: 3,
            count: u32::try_from(content.len()).unwrap_or(0),
            offset,
            content: seq(alloc, content)?,
        })?;
    }
    Ok(Seq::from_vec(items))
}

// One table, of `print` alone.
fn imports(alloc: Global) -> Result<Seq<Seq<Import>>, Fail> {
    let name = Text::from_utf8(alloc, b"print")?;
    let sign = 0x3F3C28DA;
    let table = vec![in alloc; Import { sign, name }]?;
    Ok(Seq::from_vec(vec![in alloc; Seq::from_vec(table)]?))
}

// An object that begins with its first instruction, in a frame of type 1.
pub(crate) fn assembled(
    alloc: Global,
    code: Vec<Inst>,
    types: Seq<TypeDesc>,
    items: Seq<Item>,
) -> Result<Object, Fail> {
    let data_size = types.as_slice().first().map_or(0, |data| data.size);
    Ok(Object {
        flags: 0x100,
        stack: 0,
        data_size,
        entry_pc: 0,
        entry_type: 1,
        insts: Seq::from_vec(code),
        types,
        items,
        module: Text::new(alloc),
        links: Seq::new(alloc),
        imports: imports(alloc)?,
        catches: Seq::new(alloc),
    })
}

pub(crate) fn object(alloc: Global, code: &[Inst]) -> Result<Object, Fail> {
    let code = Vec::from_slice(alloc, code)?;
    let types = types(alloc)?;
    let items = items(alloc, b"hi!")?;
    assembled(alloc, code, types, items)
}

// `print("hi!")`, and the end.
pub(crate) fn greeting(alloc: Global) -> Result<Object, Fail> {
    let made = Operand::Fp(36);
    let argument = Operand::IndFp {
        inner: 36,
        outer: 32,
    };
    let answer = Operand::IndFp {
        inner: 36,
        outer: 16,
    };
    object(
        alloc,
        &[
            inst(Op::Load, Operand::Mp(0), Middle::Imm(0), Operand::Mp(4)),
            inst(Op::Frame, Operand::Imm(2), Middle::None, made),
            inst(Op::Movp, Operand::Mp(8), Middle::None, argument),
            inst(Op::Lea, Operand::Fp(32), Middle::None, answer),
            inst(Op::Mcall, made, Middle::Imm(0), Operand::Mp(4)),
            inst(Op::Ret, Operand::None, Middle::None, Operand::None),
        ],
    )
}
