//! Instructions as words of text.

use crate::objects::inst;
use dis_isa::{Inst, Middle, Op, Operand, op_of};
use std::alloc::{AllocError, Global};
use std::process::Abort;

pub(crate) fn number(rt: &impl Abort, word: &str) -> i32 {
    word.parse::<i32>().expect(rt, "a number")
}

// The operation of a name.
pub(crate) fn operation(alloc: Global, name: &str) -> Result<Option<Op>, AllocError> {
    for code in 0..=u8::MAX {
        if let Some(op) = op_of(code) {
            let spelling = format!(in alloc; "{op:?}")?;
            if spelling.as_str().eq_ignore_ascii_case(name) {
                return Ok(Some(op));
            }
        }
    }
    Ok(None)
}

// Two offsets, with a point between them.
fn offsets(rt: &impl Abort, word: &str) -> (i32, i32) {
    let (inner, outer) = word.split_once('.').expect(rt, "two offsets");
    (number(rt, inner), number(rt, outer))
}

// An operand: `$5` is the number, `f32` is 32(fp), `m8` is 8(mp), `i36.4` is 4(36(fp)), `j8.4` is 4(8(mp)), and `-` is none.
pub(crate) fn operand(rt: &impl Abort, word: &str) -> Operand {
    if let Some(rest) = word.strip_prefix("$") {
        return Operand::Imm(number(rt, rest));
    }
    if let Some(rest) = word.strip_prefix("f") {
        return Operand::Fp(number(rt, rest));
    }
    if let Some(rest) = word.strip_prefix("m") {
        return Operand::Mp(number(rt, rest));
    }
    if let Some(rest) = word.strip_prefix("i") {
        let (inner, outer) = offsets(rt, rest);
        return Operand::IndFp { inner, outer };
    }
    if let Some(rest) = word.strip_prefix("j") {
        let (inner, outer) = offsets(rt, rest);
        return Operand::IndMp { inner, outer };
    }
    assert_eq!(rt; word, "-");
    Operand::None
}

pub(crate) fn middle(rt: &impl Abort, word: &str) -> Middle {
    match operand(rt, word) {
        Operand::Imm(n) => Middle::Imm(n),
        Operand::Fp(at) => Middle::Fp(at),
        Operand::Mp(at) => Middle::Mp(at),
        _ => Middle::None,
    }
}

// How many instructions a line of a program stands for.
fn count_in(line: &str) -> i32 {
    if line.starts_with('.') || line.ends_with(':') {
        0
    } else if line.starts_with("number ") || line.starts_with("text ") {
        5
    } else {
        1
    }
}

// The place of the instruction behind a line `label:`. The first instruction is none of the program's lines.
pub(crate) fn place_of(rt: &impl Abort, program: &str, label: &str) -> i32 {
    let mut place = 1_i32;
    for line in program.lines() {
        if line.strip_suffix(":") == Some(label) {
            return place;
        }
        place = place.wrapping_add(count_in(line));
    }
    assert!(rt; false, "{label}");
    0
}

// A destination may be a label: `>there`.
fn destination(rt: &impl Abort, program: &str, word: &str) -> Operand {
    match word.strip_prefix(">") {
        Some(label) => Operand::Imm(place_of(rt, program, label)),
        None => operand(rt, word),
    }
}

// A line with a name and up to three operands.
fn instruction(
    rt: &impl Abort,
    alloc: Global,
    program: &str,
    line: &str,
) -> Result<Inst, AllocError> {
    let mut words = line.split(' ');
    let name = words.next().unwrap_or("");
    let op = operation(alloc, name)?.expect(rt, "an operation");
    let src = operand(rt, words.next().unwrap_or("-"));
    let middle = middle(rt, words.next().unwrap_or("-"));
    let dst = destination(rt, program, words.next().unwrap_or("-"));
    Ok(inst(op, src, middle, dst))
}

fn in_made(outer: i32) -> Operand {
    Operand::IndFp { inner: 32, outer }
}

// A print of one word: a frame of a type is made at 32(fp), gets the format and the word, and is called. The answer goes to 36(fp).
fn print(moves: Op, frame: i32, format: i32, word: Operand) -> [Inst; 5] {
    let none = Middle::None;
    let made = Operand::Fp(32);
    [
        inst(Op::Frame, Operand::Imm(frame), none, made),
        inst(Op::Movp, Operand::Mp(format), none, in_made(32)),
        inst(moves, word, none, in_made(36)),
        inst(Op::Lea, Operand::Fp(36), none, in_made(16)),
        inst(Op::Mcall, made, Middle::Imm(0), Operand::Mp(4)),
    ]
}

// The code of a program: Sys is loaded, and then come the instructions of its lines, of which `number` and `text` are prints.
pub(crate) fn code_of(
    rt: &impl Abort,
    alloc: Global,
    program: &str,
) -> Result<Vec<Inst>, AllocError> {
    let mut code = Vec::new(alloc);
    code.push(inst(Op::Load, Operand::Mp(0), Middle::Imm(0), Operand::Mp(4)))?;
    for line in program.lines() {
        if let Some(word) = line.strip_prefix("number ") {
            code.extend_from_slice(&print(Op::Movw, 2, 8, operand(rt, word)))?;
        } else if let Some(word) = line.strip_prefix("text ") {
            code.extend_from_slice(&print(Op::Movp, 3, 12, operand(rt, word)))?;
        } else if count_in(line) == 1 {
            code.push(instruction(rt, alloc, program, line)?)?;
        }
    }
    Ok(code)
}
