//! Rows of the first pass over values: a test of `lower` over modules that the program makes.
//!
//! Each line of the input has names of statements, and a number before them: so many variables more than the five that they speak of has
//! the one function of a module, whose body they are. Of each the program prints the function's code, as how many slots it has and its
//! instructions, with the slots that they name and how many instructions they pass; or the number of the refusal.
#![tactic(auto)]

mod listing;
mod trees;

use crate::listing::listing;
use crate::trees::{statement, type_of};
use core_sizing::SizeFault;
use inf_text::Text;
use limbo_adts::Adts;
use limbo_layout::AdtsFault;
use limbo_lower::lower;
use limbo_typed::{TFn, TVar, TypedModule};
use limbo_types::{FnTy, Ty};
use std::alloc::{AllocError, Global};
use std::io;
use std::mem::forget;

// The five variables, and so many ints more.
fn variables(alloc: Global, more: u32) -> Result<Vec<TVar>, AllocError> {
    let mut all = Vec::new(alloc);
    for number in 0..5 {
        all.push(TVar {
            name: Text::new(alloc),
            ty: type_of(alloc, number)?,
        })?;
    }
    for _ in 0..more {
        all.push(TVar {
            name: Text::new(alloc),
            ty: Ty::Int,
        })?;
    }
    Ok(all)
}

// A function with so many variables more and these statements.
fn function(alloc: Global, more: u32, names: &str) -> Result<TFn, AllocError> {
    let mut body = Vec::new(alloc);
    for name in names.split_ascii_whitespace() {
        body.push(statement(alloc, name)?)?;
    }
    Ok(TFn {
        name: Text::new(alloc),
        owner: None,
        of: FnTy {
            args: Vec::new(alloc),
            answer: Ty::Nothing,
        },
        variables: variables(alloc, more)?,
        catches: 0,
        body,
    })
}

// A module that has this function alone.
fn module_of(alloc: Global, function: TFn) -> Result<TypedModule, AllocError> {
    let adts = match Adts::new(alloc, Vec::new(alloc), Vec::new(alloc)) {
        Ok(adts) => adts,
        Err(AdtsFault::NoMemory | AdtsFault::TooLarge { .. }) => return Err(AllocError),
    };
    let mut functions = Vec::new(alloc);
    functions.push(function)?;
    Ok(TypedModule {
        name: Text::new(alloc),
        adts,
        globals: Vec::new(alloc),
        initials: Vec::new(alloc),
        functions,
        declared: Vec::new(alloc),
        interfaces: Vec::new(alloc),
        system: None,
        exceptions: Vec::new(alloc),
    })
}

// What is printed of a module. The code isn't let go, as the program ends soon.
fn told(alloc: Global, module: &TypedModule) -> Result<String, AllocError> {
    match lower(alloc, module) {
        Err(SizeFault::NoMemory) => Err(AllocError),
        Err(SizeFault::FrameTooLarge) => format!(in alloc; "70"),
        Ok(program) => {
            let told = listing(alloc, &program);
            forget(program);
            told
        }
    }
}

// What is printed of a row. The module isn't let go either.
fn answer(alloc: Global, row: &str) -> Result<String, AllocError> {
    let (more, names) = row.split_once(" ").unwrap_or((row, ""));
    let more = more.parse::<u32>().unwrap_or(0);
    let module = module_of(alloc, function(alloc, more, names)?)?;
    let told = told(alloc, &module);
    forget(module);
    told
}

fn main(rt: HostRuntime) -> io::Result<()> {
    for line in rt.lines(rt.alloc()) {
        let answer = answer(rt.alloc(), line?.as_str())?;
        println!(rt; "{answer}")?;
    }
    Ok(())
}
