//! Texts that formats make of the numbers in a print's frame.

use crate::hosting::run_machine;
use crate::objects::{inst, items, object, seq};
use dis_file::{Object, TypeDesc};
use dis_isa::{Inst, Middle, Op, Operand};
use dis_machine::{End, Machine, Setup};
use inf_ports::MemSink;
use inf_text::{Seq, Text, is_spelled};
use std::alloc::{AllocError, Global};
use std::process::Abort;
use std::test::Fail;

// A row: the format, the words of the print's frame behind it (a number, or `nil` for a reference), and what is printed, or what is raised
// where the format doesn't fit the frame. The first of these words is at 36, so a big at the front is in the second and the third.
const ROWS: &str = "\
%d|-7|-7
%d and %d.|1 2|1 and 2.
100%% of %d|5|100% of 5
%%|0|%
%bd|0 256 0|1099511627776
%bd|7 -2147483648 0|-9223372036854775808
%bd %d|0 0 5 6|5 6
%d %bd|3 256 1|3 1099511627777
%d %d %bd|1 2 9 -1 -2|1 2 -2
%x|-1|ffffffff
%x %x|255 0|ff 0
%c|9786|\u{263A}
%c%c|-1 55296|\u{FFFD}\u{FFFD}
%|7|raises bad format
%d%|7|raises bad format
%b|0 0 0|raises bad format
%bx|0 0 0|raises bad format
[%s]|nil|[]
%s|7|raises bad format
%d%d|7|raises bad format
%bd|7 7|raises bad format
%d|nil|raises bad format
";

fn in_made(outer: i32) -> Operand {
    Operand::IndFp { inner: 36, outer }
}

// The type of a print's frame with these words behind the format.
fn frame_of(alloc: Global, words: &str) -> Result<TypeDesc, AllocError> {
    let (mut size, mut bit, mut references) = (36_u32, 0x40_u8, 0x80_u8);
    for word in words.split(' ') {
        if word == "nil" {
            references |= bit;
        }
        bit >>= 1;
        size = size.wrapping_add(4);
    }
    let map = seq(alloc, &[0, references])?;
    Ok(TypeDesc { size, map })
}

// A frame is made, gets the format and the numbers, and is called.
fn code_of(alloc: Global, words: &str) -> Result<Vec<Inst>, AllocError> {
    let none = Middle::None;
    let made = Operand::Fp(36);
    let mut code = Vec::new(alloc);
    code.push(inst(Op::Load, Operand::Mp(0), Middle::Imm(0), Operand::Mp(4)))?;
    code.push(inst(Op::Frame, Operand::Imm(2), none, made))?;
    code.push(inst(Op::Movp, Operand::Mp(8), none, in_made(32)))?;
    let mut at = 36_i32;
    for word in words.split(' ') {
        if let Ok(n) = word.parse::<i32>() {
            code.push(inst(Op::Movw, Operand::Imm(n), none, in_made(at)))?;
        }
        at = at.wrapping_add(4);
    }
    code.push(inst(Op::Lea, Operand::Fp(32), none, in_made(16)))?;
    code.push(inst(Op::Mcall, made, Middle::Imm(0), Operand::Mp(4)))?;
    code.push(inst(Op::Ret, Operand::None, none, Operand::None))?;
    Ok(code)
}

fn printing(alloc: Global, format: &str, words: &str) -> Result<Object, Fail> {
    let mut printing = object(alloc, &code_of(alloc, words)?)?;
    let mut types = Vec::new(alloc);
    for (size, map) in [(12, b"\xE0".as_slice()), (40, b"\0".as_slice())] {
        let map = seq(alloc, map)?;
        types.push(TypeDesc { size, map })?;
    }
    types.push(frame_of(alloc, words)?)?;
    printing.types = Seq::from_vec(types);
    printing.items = items(alloc, format.as_bytes())?;
    Ok(printing)
}

fn expect_row(rt: &impl Abort, alloc: Global, row: &str) -> Result<(), Fail> {
    let (format, rest) = row.split_once('|').expect(rt, "words");
    let (words, wanted) = rest.split_once('|').expect(rt, "what is printed");
    let objects = vec![in alloc; (Text::new(alloc), printing(alloc, format, words)?)]?;
    let mut out = MemSink::new(alloc, 64, Vec::new(alloc))?;
    let machine = Machine::start(alloc, Setup { objects, limit: 3 })?;
    let ran = run_machine(rt, alloc, machine, &mut out)?;
    if let Some(raised) = wanted.strip_prefix("raises ") {
        assert_eq!(rt; ran.end, End::Broke, "{row}");
        let broken = ran.broken.first().expect(rt, "what is raised");
        assert!(rt; is_spelled(broken.text.as_slice(), raised), "{row}");
        assert!(rt; out.as_slice().is_empty(), "{row}");
    } else {
        assert_eq!(rt; ran.end, End::Done, "{row}");
        assert!(rt; out.as_slice() == wanted.as_bytes(), "{row}");
    }
    Ok(())
}

/// Each row of the table.
#[test]
fn formats_of_each_verb(rt: HostRuntime) -> Result<(), Fail> {
    for row in ROWS.lines() {
        expect_row(&rt, rt.alloc(), row)?;
    }
    Ok(())
}
