//! Typed statements of their parts.

ghost use Rattle.std.specs.Prelude.{◌≡◌, IfOk, IfErr};
ghost use Rattle.limbo_typed.specs.Typed as typed;
ghost use Rattle.limbo_typed.specs.View.{view_expr, view_boxed, view_stmt, view_stmts};
ghost use Rattle.limbo_causes.specs.declared.fault.Cause.TheVariants.{NoMemory};
ghost use Rattle.limbo_stmt_values.specs.declared.fault.Why.TheVariants.{Part};
ghost use Rattle.limbo_stmt_values.specs.limbo_stating.Stating.{one};

use crate::faults::{boxed, no_memory};
use limbo_stmt_values::StmtFault;
use limbo_typed::{TExpr, TStmt};
use std::alloc::Global;

/// A statement alone.
pub(crate) fn alone(alloc: Global, s: Box<TStmt>) -> Result<Vec<TStmt>, StmtFault>
    ensures one { IfOk result (λ ss. view_stmts ss.items ≡ one (view_stmt s.value)) }
    ensures refused { IfErr result (λ f. f.why ≡ Part NoMemory) }
{
    let mut ss = Vec::new(alloc);
    match ss.push(Box::into_inner(s)) {
        Ok(()) => Ok(ss),
        Err(_) => Err(no_memory()),
    }
}

/// `if`, without an `else`.
#[tactic(auto, using(limbo_typed::proofs::View::the_stmts))]
pub(crate) fn only_then(
    alloc: Global,
    condition: Box<TExpr>,
    then: Box<TStmt>,
) -> Result<Box<TStmt>, StmtFault>
    ensures made { IfOk result (λ z. view_stmt z.value ≡ typed.If (view_expr condition.value) (one (view_stmt then.value)) typed.NoStmts) }
    ensures refused { IfErr result (λ f. f.why ≡ Part NoMemory) }
{
    let then = alone(alloc, then)?;
    let other = Vec::new(alloc);
    boxed(
        alloc,
        TStmt::If {
            condition,
            then,
            other,
        },
    )
}

/// `if` with an `else`.
#[tactic(auto, using(limbo_typed::proofs::View::the_stmts))]
pub(crate) fn then_or_else(
    alloc: Global,
    condition: Box<TExpr>,
    then: Box<TStmt>,
    other: Box<TStmt>,
) -> Result<Box<TStmt>, StmtFault>
    ensures made { IfOk result (λ z. view_stmt z.value
        ≡ typed.If (view_expr condition.value) (one (view_stmt then.value)) (one (view_stmt other.value))) }
    ensures refused { IfErr result (λ f. f.why ≡ Part NoMemory) }
{
    let then = alone(alloc, then)?;
    let other = alone(alloc, other)?;
    boxed(
        alloc,
        TStmt::If {
            condition,
            then,
            other,
        },
    )
}

/// `while`
#[tactic(auto, using(limbo_typed::proofs::View::the_stmts))]
pub(crate) fn while_turns(
    alloc: Global,
    condition: Option<Box<TExpr>>,
    turn: Box<TStmt>,
) -> Result<Box<TStmt>, StmtFault>
    ensures made { IfOk result (λ z. view_stmt z.value ≡ typed.While (view_boxed condition) (one (view_stmt turn.value))) }
    ensures refused { IfErr result (λ f. f.why ≡ Part NoMemory) }
{
    let body = alone(alloc, turn)?;
    boxed(alloc, TStmt::While { condition, body })
}

/// `do`
#[tactic(auto, using(limbo_typed::proofs::View::the_stmts))]
pub(crate) fn do_turns(
    alloc: Global,
    turn: Box<TStmt>,
    condition: Option<Box<TExpr>>,
) -> Result<Box<TStmt>, StmtFault>
    ensures made { IfOk result (λ z. view_stmt z.value ≡ typed.Do (one (view_stmt turn.value)) (view_boxed condition)) }
    ensures refused { IfErr result (λ f. f.why ≡ Part NoMemory) }
{
    let body = alone(alloc, turn)?;
    boxed(alloc, TStmt::Do { body, condition })
}

/// `for`
#[tactic(auto, using(limbo_typed::proofs::View::the_stmts))]
pub(crate) fn for_turns(
    alloc: Global,
    first: Option<Box<TExpr>>,
    condition: Option<Box<TExpr>>,
    next: Option<Box<TExpr>>,
    turn: Box<TStmt>,
) -> Result<Box<TStmt>, StmtFault>
    ensures made { IfOk result (λ z. view_stmt z.value
        ≡ typed.For (view_boxed first) (view_boxed condition) (view_boxed next) (one (view_stmt turn.value))) }
    ensures refused { IfErr result (λ f. f.why ≡ Part NoMemory) }
{
    let body = alone(alloc, turn)?;
    boxed(
        alloc,
        TStmt::For {
            first,
            condition,
            next,
            body,
        },
    )
}
