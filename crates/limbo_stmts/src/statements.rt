//! Statements.

ghost use Rattle.std.specs.Prelude.{IfOk, IfErr};
ghost use Rattle.limbo_tree.specs.View as source;
ghost use Rattle.limbo_typed.specs.View.{view_stmts};
ghost use Rattle.limbo_heads.specs.Around.{view_around};
ghost use Rattle.limbo_stmt_values.specs.limbo_stating.Stating.{StatesAll};
ghost use Rattle.limbo_stmt_values.specs.limbo_stating.FailsToState.{FailsAll};
ghost use Rattle.limbo_stmt_values.specs.Whys.{FailsFor};
ghost use Rattle.limbo_stmts.specs.View.{view_point};
ghost use Rattle.limbo_stmts.specs.Stated.{IsStated, IsNone};

use crate::blocks::block;
use crate::branches::{alt_of, case_of, pick_of};
use crate::choices::{if_else, only_if};
use crate::faults::{boxed, no_memory};
use crate::loops::{do_loop, for_loop, while_loop};
use crate::plain::{broken, continued, declared, evaluated, raises, returns, spawns};
use crate::point::Point;
use limbo_heads::Around;
use limbo_stmt_values::StmtFault;
use limbo_tree::Stmt;
use limbo_typed::TStmt;
use std::alloc::Global;

/// The typed statement that a statement is, where the checking has come to; the point is then where it leads.
///
/// # Errors
/// 60 to 64 by the rules of `case`, `alt` and `pick`, of answers and of labels; those of the statement's parts.
#[cycle(statements)]
pub fn state<'a>(
    alloc: Global,
    around: &Around<'a>,
    point: &mut Point,
    s: &'a Stmt,
) -> Result<Box<TStmt>, StmtFault>
    ensures states { IfOk result (λ z. IsStated around.now point.old (source.view_stmt s.now) z.value point.new) }
    ensures refused { IfErr result (λ f. IsNone around.now point.old (source.view_stmt s.now) f.why) }
{
    match s {
        Stmt::Empty { .. } => boxed(alloc, TStmt::Empty),
        Stmt::Block { block: b, .. } => block(alloc, around, point, b),
        Stmt::Declare { decl, .. } => declared(alloc, around, point, decl),
        Stmt::Eval { value, .. } => evaluated(alloc, around, point, value),
        Stmt::If {
            condition,
            then,
            otherwise,
            ..
        } => match otherwise {
            None => only_if(alloc, around, point, condition, then),
            Some(other) => if_else(alloc, around, point, condition, then, other),
        },
        Stmt::While {
            label,
            condition,
            body,
            ..
        } => while_loop(alloc, around, point, label, condition, body),
        Stmt::Do {
            label,
            body,
            condition,
            ..
        } => do_loop(alloc, around, point, label, body, condition),
        Stmt::For {
            label,
            first,
            condition,
            next,
            body,
            ..
        } => for_loop(alloc, around, point, label, first, condition, next, body),
        Stmt::Case {
            label,
            value,
            arms,
            span,
        } => case_of(alloc, around, point, label, value, arms, *span),
        Stmt::Alt { label, arms, span } => alt_of(alloc, around, point, label, arms, *span),
        Stmt::Pick {
            label,
            name,
            value,
            arms,
            span,
        } => pick_of(alloc, around, point, label, &name.text, value, arms, *span),
        Stmt::Break { label, span } => broken(alloc, around, point, label, *span),
        Stmt::Continue { label, span } => continued(alloc, around, point, label, *span),
        Stmt::Return { value, span } => returns(alloc, around, point, value, *span),
        Stmt::Exit { .. } => boxed(alloc, TStmt::Exit),
        Stmt::Spawn { call, .. } => spawns(alloc, around, point, call),
        Stmt::Raise { value, span } => raises(alloc, around, point, value, *span),
    }
}

/// The typed statements that statements in a row are, where the checking has come to.
///
/// # Errors
/// Those of the first that fails.
#[cycle(statements)]
pub fn state_all<'a>(
    alloc: Global,
    around: &Around<'a>,
    point: &mut Point,
    ss: &'a [Stmt],
) -> Result<Vec<TStmt>, StmtFault>
    ensures states { IfOk result (λ zs. StatesAll (view_around around.now) (view_point point.old) (source.view_stmts ss.now)
        (view_stmts zs.items) (view_point point.new)) }
    ensures refused { IfErr result (λ f. FailsFor f.why
        (FailsAll (view_around around.now) (view_point point.old) (source.view_stmts ss.now))) }
{
    let mut zs = Vec::new(alloc);
    for s in ss {
        match state(alloc, around, point, s) {
            Err(fault) => return Err(fault),
            Ok(z) => match zs.push(Box::into_inner(z)) {
                Ok(()) => {}
                Err(_) => return Err(no_memory()),
            },
        }
    }
    Ok(zs)
}
