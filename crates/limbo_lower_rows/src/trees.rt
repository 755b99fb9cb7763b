//! The bodies of functions that rows speak of. Variables 0 and 1 are ints, 2 and 3 lists of ints, 4 is an array of ints.

use limbo_typed::{Connective, Operation, Pattern, Place, PlaceNode, Printed, TExpr, TNode, TStmt};
use limbo_types::Ty;
use limbo_values::{Comparison, Kind, Operator};
use std::alloc::{AllocError, Global};

// `list of int`
fn list(alloc: Global) -> Result<Ty, AllocError> {
    Ok(Ty::List(Box::new(alloc, Ty::Int)?))
}

// `array of int`
fn array(alloc: Global) -> Result<Ty, AllocError> {
    Ok(Ty::Array(Box::new(alloc, Ty::Int)?))
}

/// The type of the variable of this number.
///
/// # Errors
/// Want of memory.
pub fn type_of(alloc: Global, variable: u32) -> Result<Ty, AllocError> {
    match variable {
        2 | 3 => list(alloc),
        4 => array(alloc),
        _ => Ok(Ty::Int),
    }
}

fn place(alloc: Global, variable: u32) -> Result<Box<Place>, AllocError> {
    let ty = type_of(alloc, variable)?;
    let at = PlaceNode::Local(variable);
    Ok(Box::new(alloc, Place { ty, at })?)
}

fn number(n: i64) -> TExpr {
    TExpr {
        ty: Ty::Int,
        node: TNode::Number(n),
    }
}

// What a variable has.
fn read(alloc: Global, variable: u32) -> Result<TExpr, AllocError> {
    Ok(TExpr {
        ty: type_of(alloc, variable)?,
        node: TNode::Read(place(alloc, variable)?),
    })
}

// An operation on two values.
fn two(
    alloc: Global,
    ty: Ty,
    operation: Operation,
    left: TExpr,
    right: TExpr,
) -> Result<TExpr, AllocError> {
    let mut args = Vec::new(alloc);
    args.push(left)?;
    args.push(right)?;
    Ok(TExpr {
        ty,
        node: TNode::Apply { operation, args },
    })
}

// `pattern = value;`
fn assigned(alloc: Global, pattern: Pattern, value: TExpr, ty: Ty) -> Result<TStmt, AllocError> {
    let node = TNode::Assign {
        pattern: Box::new(alloc, pattern)?,
        value: Box::new(alloc, value)?,
    };
    Ok(TStmt::Eval(Box::new(alloc, TExpr { ty, node })?))
}

// `variable = value;`
fn set(alloc: Global, variable: u32, value: TExpr) -> Result<TStmt, AllocError> {
    let ty = type_of(alloc, variable)?;
    assigned(alloc, Pattern::Place(place(alloc, variable)?), value, ty)
}

// `i + 1`
fn next(alloc: Global) -> Result<TExpr, AllocError> {
    let sum = Operation::Arithmetic {
        operator: Operator::Add,
        kind: Kind::Int,
    };
    two(alloc, Ty::Int, sum, read(alloc, 0)?, number(1))
}

// `while (i < 3) i = i + 1;`
fn counting(alloc: Global) -> Result<TStmt, AllocError> {
    let less = Operation::Compare {
        comparison: Comparison::Less,
        kind: Kind::Int,
    };
    let condition = two(alloc, Ty::Int, less, read(alloc, 0)?, number(3))?;
    let mut body = Vec::new(alloc);
    body.push(set(alloc, 0, next(alloc)?)?)?;
    Ok(TStmt::While {
        condition: Some(Box::new(alloc, condition)?),
        body,
    })
}

// `l = i :: l;`
fn longer(alloc: Global) -> Result<TStmt, AllocError> {
    let cons = two(
        alloc,
        list(alloc)?,
        Operation::Cons,
        read(alloc, 0)?,
        read(alloc, 2)?,
    )?;
    set(alloc, 2, cons)
}

// `a = array of { * => 7 };`
fn filled(alloc: Global) -> Result<TStmt, AllocError> {
    let node = TNode::Filled {
        length: None,
        items: Vec::new(alloc),
        rest: Some(Box::new(alloc, number(7))?),
    };
    let ty = array(alloc)?;
    set(alloc, 4, TExpr { ty, node })
}

// `(l, m) = (m, l);`
fn swapped(alloc: Global) -> Result<TStmt, AllocError> {
    let mut types = Vec::new(alloc);
    types.push(list(alloc)?)?;
    types.push(list(alloc)?)?;
    let pair = two(
        alloc,
        Ty::Tuple(types),
        Operation::Tuple,
        read(alloc, 3)?,
        read(alloc, 2)?,
    )?;
    let mut places = Vec::new(alloc);
    places.push(Pattern::Place(place(alloc, 2)?))?;
    places.push(Pattern::Place(place(alloc, 3)?))?;
    let mut types = Vec::new(alloc);
    types.push(list(alloc)?)?;
    types.push(list(alloc)?)?;
    assigned(alloc, Pattern::Tuple(places), pair, Ty::Tuple(types))
}

// `if (i < 3) i = 0; else j = 1;`
fn chosen(alloc: Global) -> Result<TStmt, AllocError> {
    let less = Operation::Compare {
        comparison: Comparison::Less,
        kind: Kind::Int,
    };
    let condition = two(alloc, Ty::Int, less, read(alloc, 0)?, number(3))?;
    let mut then = Vec::new(alloc);
    then.push(set(alloc, 0, number(0))?)?;
    let mut other = Vec::new(alloc);
    other.push(set(alloc, 1, number(1))?)?;
    Ok(TStmt::If {
        condition: Box::new(alloc, condition)?,
        then,
        other,
    })
}

// `i = i && j;`
fn both(alloc: Global) -> Result<TStmt, AllocError> {
    let node = TNode::Lazy {
        connective: Connective::And,
        left: Box::new(alloc, read(alloc, 0)?)?,
        right: Box::new(alloc, read(alloc, 1)?)?,
    };
    let ty = Ty::Int;
    set(alloc, 0, TExpr { ty, node })
}

// `f()`
fn bare(alloc: Global) -> TExpr {
    TExpr {
        ty: Ty::Int,
        node: TNode::Call {
            function: 0,
            args: Vec::new(alloc),
        },
    }
}

// `f(i, list)`, whose answer is a list.
fn call(alloc: Global, list_given: TExpr) -> Result<TExpr, AllocError> {
    let mut args = Vec::new(alloc);
    args.push(read(alloc, 0)?)?;
    args.push(list_given)?;
    Ok(TExpr {
        ty: list(alloc)?,
        node: TNode::Call { function: 0, args },
    })
}

// `l = f(i, f(i, l));`
fn nested(alloc: Global) -> Result<TStmt, AllocError> {
    let inner = call(alloc, read(alloc, 2)?)?;
    set(alloc, 2, call(alloc, inner)?)
}

// `print` of a format without characters, of these arguments.
fn print(alloc: Global, args: Vec<TExpr>) -> Result<TStmt, AllocError> {
    let module = TExpr {
        ty: Ty::Module(0),
        node: TNode::Nil,
    };
    let node = TNode::Print {
        printed: Printed::Print,
        module: Box::new(alloc, module)?,
        file: None,
        format: Vec::new(alloc),
        args,
    };
    let ty = Ty::Int;
    Ok(TStmt::Eval(Box::new(alloc, TExpr { ty, node })?))
}

// `print` of `byte 5` and of `i`.
fn printed(alloc: Global) -> Result<TStmt, AllocError> {
    let mut args = Vec::new(alloc);
    args.push(TExpr {
        ty: Ty::Byte,
        node: TNode::Number(5),
    })?;
    args.push(read(alloc, 0)?)?;
    print(alloc, args)
}

/// The statement of this name, or an empty one.
///
/// # Errors
/// Want of memory.
pub fn statement(alloc: Global, name: &str) -> Result<TStmt, AllocError> {
    match name {
        "set" => set(alloc, 0, number(5)),
        "count" => counting(alloc),
        "list" => longer(alloc),
        "array" => filled(alloc),
        "swap" => swapped(alloc),
        "choose" => chosen(alloc),
        "both" => both(alloc),
        "bare" => set(alloc, 0, bare(alloc)),
        "call" => set(alloc, 2, call(alloc, read(alloc, 2)?)?),
        "nested" => nested(alloc),
        "print" => print(alloc, Vec::new(alloc)),
        "printed" => printed(alloc),
        _ => Ok(TStmt::Empty),
    }
}
