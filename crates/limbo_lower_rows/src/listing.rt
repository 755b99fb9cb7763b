//! Instructions as words: the name, then the slot into which one puts something, those from which it takes, and how many instructions are
//! passed. Of an operand that comes to its part the numbers of both stand behind them, and of what is made of operands how many these are.

use core_data::{CoreFn, CoreProgram, Inst};
use std::alloc::{AllocError, Global};

// Adds a word to a line.
fn add(line: &mut Vec<String>, word: String) -> Result<(), AllocError> {
    line.push(word)?;
    Ok(())
}

// A number.
fn number(alloc: Global, n: u64) -> Result<String, AllocError> {
    format!(in alloc; "{n}")
}

// A name with numbers.
fn word(alloc: Global, name: &str, numbers: &[u32]) -> Result<String, AllocError> {
    let mut all = String::new(alloc);
    all.push_str(name)?;
    for n in numbers {
        all.push_str(" ")?;
        all.push_str(number(alloc, u64::from(*n))?.as_str())?;
    }
    Ok(all)
}

// A name with the slot into which an instruction puts a value, and those from which it takes.
fn giving(alloc: Global, name: &str, into: u32, from: &[u32]) -> Result<String, AllocError> {
    let mut numbers = Vec::new(alloc);
    numbers.push(into)?;
    numbers.extend_from_slice(from)?;
    word(alloc, name, &numbers)
}

// A name with the slot of the value, and that of the operands where there are any.
fn calling(
    alloc: Global,
    name: &str,
    into: u32,
    operands: Option<u32>,
) -> Result<String, AllocError> {
    match operands {
        Some(from) => word(alloc, name, &[into, from]),
        None => word(alloc, name, &[into]),
    }
}

// How many instructions are passed.
fn passed(passes: usize) -> u32 {
    u32::try_from(passes).unwrap_or(u32::MAX)
}

// An instruction of an initialiser, and one of control.
fn controlling(alloc: Global, inst: &Inst) -> Result<String, AllocError> {
    match inst {
        Inst::Start { turns } => word(alloc, "start", &[*turns]),
        Inst::Next {
            array,
            turns,
            passes,
            ..
        } => word(alloc, "next", &[*array, *turns, passed(*passes)]),
        Inst::Other {
            array,
            turns,
            from,
            ..
        } => word(alloc, "other", &[*array, *turns, *from]),
        Inst::Drop { slot, reference } => word(alloc, "drop", &[*slot, *reference]),
        Inst::Unless { condition, passes } => {
            word(alloc, "unless", &[*condition, passed(*passes)])
        }
        Inst::Jump { passes } => word(alloc, "jump", &[passed(*passes)]),
        Inst::Back { steps } => word(alloc, "back", &[passed(*steps)]),
        Inst::Return { .. } => word(alloc, "return", &[]),
        _ => word(alloc, "another", &[]),
    }
}

// An instruction of operands that are put together.
fn making(alloc: Global, inst: &Inst) -> Result<String, AllocError> {
    match inst {
        Inst::Place {
            operand,
            part,
            into,
            from,
            ..
        } => word(alloc, "place", &[*into, *from, *operand, *part]),
        Inst::Gather { into, operands, .. } => word(alloc, "gather", &[*into, *operands]),
        Inst::Call { into, operands, .. } => calling(alloc, "call", *into, *operands),
        Inst::Print { into, operands, .. } => calling(alloc, "print", *into, *operands),
        _ => controlling(alloc, inst),
    }
}

// An instruction.
fn told(alloc: Global, inst: &Inst) -> Result<String, AllocError> {
    match inst {
        Inst::Give { into, from, .. } => giving(alloc, "give", *into, from),
        Inst::Known { into, .. } => word(alloc, "known", &[*into]),
        Inst::Write { operands, from, .. } => giving(alloc, "write", *from, operands),
        Inst::Skip {
            into,
            from,
            passes,
            ..
        } => word(alloc, "skip", &[*into, *from, passed(*passes)]),
        Inst::Truth { into, from } => word(alloc, "truth", &[*into, *from]),
        _ => making(alloc, inst),
    }
}

// A function: how many slots it has, and its instructions.
fn function(alloc: Global, line: &mut Vec<String>, f: &CoreFn) -> Result<(), AllocError> {
    add(line, number(alloc, u64::from(f.slots))?)?;
    for inst in &f.code {
        add(line, told(alloc, inst)?)?;
    }
    Ok(())
}

/// The functions of a program, in their order, as words.
///
/// # Errors
/// Want of memory.
pub fn listing(alloc: Global, program: &CoreProgram) -> Result<String, AllocError> {
    let mut line = Vec::new(alloc);
    for f in &program.functions {
        function(alloc, &mut line, f)?;
    }
    let mut all = String::new(alloc);
    for word in &line {
        if !all.is_empty() {
            all.push_str("; ")?;
        }
        all.push_str(word.as_str())?;
    }
    Ok(all)
}
