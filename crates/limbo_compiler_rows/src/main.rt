//! Rows of the compiler's bound on code: a test of `limbo_compiler` over modules that the program makes, since no source within its
//! own bound on length is so long.
//!
//! Each line of the input is a number of assignments. Of each the program prints how many instructions the object of a module has whose
//! one function makes so many assignments of a number to its variable, or the number of the refusal.
#![tactic(auto)]

use inf_text::Text;
use limbo_adts::Adts;
use limbo_compiler::{CompileFault, compile};
use limbo_layout::AdtsFault;
use limbo_typed::{Pattern, Place, PlaceNode, TExpr, TFn, TNode, TStmt, TVar, TypedModule};
use limbo_types::{FnTy, Ty};
use std::alloc::{AllocError, Global};
use std::io;
use std::mem::forget;
use typed_part::is_part;

// `x = 1;`, where x is the function's first variable.
fn assignment(alloc: Global) -> Result<TStmt, AllocError> {
    let place = Box::new(
        alloc,
        Place {
            ty: Ty::Int,
            at: PlaceNode::Local(0),
        },
    )?;
    let pattern = Box::new(alloc, Pattern::Place(place))?;
    let one = TExpr {
        ty: Ty::Int,
        node: TNode::Number(1),
    };
    let value = Box::new(alloc, one)?;
    let assigned = TExpr {
        ty: Ty::Int,
        node: TNode::Assign { pattern, value },
    };
    Ok(TStmt::Eval(Box::new(alloc, assigned)?))
}

// A function with one variable, without parameters and without an answer, that makes so many assignments.
fn function(alloc: Global, count: u64) -> Result<TFn, AllocError> {
    let mut variables = Vec::new(alloc);
    variables.push(TVar {
        name: Text::new(alloc),
        ty: Ty::Int,
    })?;
    let mut body = Vec::new(alloc);
    for _ in 0..count {
        body.push(assignment(alloc)?)?;
    }
    Ok(TFn {
        name: Text::new(alloc),
        owner: None,
        of: FnTy {
            args: Vec::new(alloc),
            answer: Ty::Nothing,
        },
        variables,
        catches: 0,
        body,
    })
}

// A module that has this function alone.
fn module_of(alloc: Global, function: TFn) -> Result<TypedModule, AllocError> {
    let adts = match Adts::new(alloc, Vec::new(alloc), Vec::new(alloc)) {
        Ok(adts) => adts,
        Err(AdtsFault::NoMemory | AdtsFault::TooLarge { .. }) => return Err(AllocError),
    };
    let mut functions = Vec::new(alloc);
    functions.push(function)?;
    Ok(TypedModule {
        name: Text::new(alloc),
        adts,
        globals: Vec::new(alloc),
        initials: Vec::new(alloc),
        functions,
        declared: Vec::new(alloc),
        interfaces: Vec::new(alloc),
        system: None,
        exceptions: Vec::new(alloc),
    })
}

// What the compiler answers of a module. The object isn't let go, as the program ends soon.
fn answered(alloc: Global, module: &TypedModule) -> Result<String, AllocError> {
    if !is_part(module) {
        return format!(in alloc; "not in the part that runs");
    }
    match compile(alloc, module) {
        Ok(object) => {
            let count = object.insts.len();
            forget(object);
            format!(in alloc; "{count} instructions")
        }
        Err(CompileFault::FrameTooLarge) => format!(in alloc; "70"),
        Err(CompileFault::CodeTooLarge) => format!(in alloc; "71"),
        Err(CompileFault::NoMemory) => Err(AllocError),
    }
}

// What is printed of so many assignments. The module isn't let go either.
fn told(alloc: Global, count: u64) -> Result<String, AllocError> {
    let module = module_of(alloc, function(alloc, count)?)?;
    let told = answered(alloc, &module);
    forget(module);
    told
}

fn main(rt: HostRuntime) -> io::Result<()> {
    for line in rt.lines(rt.alloc()) {
        let count = line?.as_str().parse::<u64>().unwrap_or(0);
        let told = told(rt.alloc(), count)?;
        println!(rt; "{told}")?;
    }
    Ok(())
}
