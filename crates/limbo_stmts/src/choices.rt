//! `if`

ghost use Rattle.std.specs.Prelude.{IfOk, IfErr};
ghost use Rattle.limbo_tree.specs.Stmts as tree;
ghost use Rattle.limbo_tree.specs.View as source;
ghost use Rattle.limbo_stmts.specs.Stated.{IsStated, IsNone};

use crate::making::{only_then, then_or_else};
use crate::point::Point;
use crate::statements::state;
use limbo_heads::Around;
use limbo_stmt_values::{StmtFault, part_fault, test};
use limbo_tree::{Expr, Stmt};
use limbo_typed::{TExpr, TStmt};
use std::alloc::Global;

/// `if`, without an `else`.
#[cycle(statements)]
pub(crate) fn only_if<'a>(
    alloc: Global,
    around: &Around<'a>,
    point: &mut Point,
    condition: &Expr,
    then: &'a Stmt,
) -> Result<Box<TStmt>, StmtFault>
    ensures states { IfOk result (λ z. IsStated around.now point.old
        (tree.If (source.view_expr condition.now) (source.view_stmt then.now)) z.value point.new) }
    ensures refused { IfErr result (λ f. IsNone around.now point.old
        (tree.If (source.view_expr condition.now) (source.view_stmt then.now)) f.why) }
{
    match test(alloc, &point.context, &mut point.body, condition) {
        Err(fault) => Err(part_fault(fault)),
        Ok(x) => match state(alloc, around, point, then) {
            Err(fault) => Err(fault),
            Ok(y) => only_then(alloc, x, y),
        },
    }
}

/// `if` with an `else`.
#[cycle(statements)]
pub(crate) fn if_else<'a>(
    alloc: Global,
    around: &Around<'a>,
    point: &mut Point,
    condition: &Expr,
    then: &'a Stmt,
    other: &'a Stmt,
) -> Result<Box<TStmt>, StmtFault>
    ensures states { IfOk result (λ z. IsStated around.now point.old
        (tree.IfElse (source.view_expr condition.now) (source.view_stmt then.now) (source.view_stmt other.now)) z.value point.new) }
    ensures refused { IfErr result (λ f. IsNone around.now point.old
        (tree.IfElse (source.view_expr condition.now) (source.view_stmt then.now) (source.view_stmt other.now)) f.why) }
{
    match test(alloc, &point.context, &mut point.body, condition) {
        Err(fault) => Err(part_fault(fault)),
        Ok(x) => match state(alloc, around, point, then) {
            Err(fault) => Err(fault),
            Ok(y) => match state(alloc, around, point, other) {
                Err(fault) => Err(fault),
                Ok(z) => then_or_else(alloc, x, y, z),
            },
        },
    }
}
