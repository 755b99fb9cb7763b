//! Loops.

ghost use Rattle.std.specs.Prelude.{IfOk, IfErr};
ghost use Rattle.limbo_tree.specs.Stmts as tree;
ghost use Rattle.limbo_tree.specs.View as source;
ghost use Rattle.limbo_typed.specs.View.{view_boxed};
ghost use Rattle.limbo_causes.specs.Causes.{FailsBy};
ghost use Rattle.limbo_stmts.specs.View.{view_point};
ghost use Rattle.limbo_stmts.specs.Stated.{IsStated, IsNone};
ghost use Rattle.limbo_stmts.specs.Turns.{IsRepeated, RepeatsNot, HasForHead, FailsForHead};

use crate::faults::no_memory;
use crate::making::{do_turns, for_turns, while_turns};
use crate::point::Point;
use crate::statements::state;
use limbo_causes::TypingFault;
use limbo_heads::Around;
use limbo_stmt_values::{StmtFault, may_evaluate, may_test, part_fault};
use limbo_tree::{Expr, Name, Stmt};
use limbo_typed::{TExpr, TStmt};
use std::alloc::Global;

// What a loop repeats.
#[cycle(statements)]
fn turn<'a>(
    alloc: Global,
    around: &Around<'a>,
    point: &mut Point,
    label: &'a Option<Name>,
    s: &'a Stmt,
) -> Result<Box<TStmt>, StmtFault>
    ensures states { IfOk result (λ z. IsRepeated (source.name_of label.now) around.now point.old (source.view_stmt s.now) z.value
        point.new) }
    ensures refused { IfErr result (λ f. RepeatsNot (source.name_of label.now) around.now point.old (source.view_stmt s.now) f.why) }
{
    match around.in_loop(alloc, label) {
        Ok(inner) => state(alloc, &inner, point, s),
        Err(_) => Err(no_memory()),
    }
}

/// `while`
#[cycle(statements)]
pub(crate) fn while_loop<'a>(
    alloc: Global,
    around: &Around<'a>,
    point: &mut Point,
    label: &'a Option<Name>,
    condition: &Option<Box<Expr>>,
    body: &'a Stmt,
) -> Result<Box<TStmt>, StmtFault>
    ensures states { IfOk result (λ z. IsStated around.now point.old
        (tree.While (source.name_of label.now) (source.view_boxed condition.now) (source.view_stmt body.now)) z.value point.new) }
    ensures refused { IfErr result (λ f. IsNone around.now point.old
        (tree.While (source.name_of label.now) (source.view_boxed condition.now) (source.view_stmt body.now)) f.why) }
{
    match may_test(alloc, &point.context, &mut point.body, condition) {
        Err(fault) => Err(part_fault(fault)),
        Ok(x) => match turn(alloc, around, point, label, body) {
            Err(fault) => Err(fault),
            Ok(y) => while_turns(alloc, x, y),
        },
    }
}

/// `do`
#[cycle(statements)]
pub(crate) fn do_loop<'a>(
    alloc: Global,
    around: &Around<'a>,
    point: &mut Point,
    label: &'a Option<Name>,
    body: &'a Stmt,
    condition: &Option<Box<Expr>>,
) -> Result<Box<TStmt>, StmtFault>
    ensures states { IfOk result (λ z. IsStated around.now point.old
        (tree.Do (source.name_of label.now) (source.view_stmt body.now) (source.view_boxed condition.now)) z.value point.new) }
    ensures refused { IfErr result (λ f. IsNone around.now point.old
        (tree.Do (source.name_of label.now) (source.view_stmt body.now) (source.view_boxed condition.now)) f.why) }
{
    match turn(alloc, around, point, label, body) {
        Err(fault) => Err(fault),
        Ok(y) => match may_test(alloc, &point.context, &mut point.body, condition) {
            Err(fault) => Err(part_fault(fault)),
            Ok(x) => do_turns(alloc, y, x),
        },
    }
}

// What stands in the head of a `for`.
#[derive(Drop)]
struct ForHead {
    first: Option<Box<TExpr>>,
    condition: Option<Box<TExpr>>,
    next: Option<Box<TExpr>>,
}

// The head of a `for`.
fn for_head(
    alloc: Global,
    point: &mut Point,
    first: &Option<Box<Expr>>,
    condition: &Option<Box<Expr>>,
    next: &Option<Box<Expr>>,
) -> Result<ForHead, TypingFault>
    ensures head { IfOk result (λ h. HasForHead (view_point point.old)
        (source.view_boxed first.now) (source.view_boxed condition.now) (source.view_boxed next.now)
        (view_boxed h.first) (view_boxed h.condition) (view_boxed h.next) (view_point point.new)) }
    ensures refused { IfErr result (λ f. FailsBy f.cause (FailsForHead (view_point point.old)
        (source.view_boxed first.now) (source.view_boxed condition.now) (source.view_boxed next.now))) }
{
    match may_evaluate(alloc, &point.context, &mut point.body, first) {
        Err(fault) => Err(fault),
        Ok(first) => match may_test(alloc, &point.context, &mut point.body, condition) {
            Err(fault) => Err(fault),
            Ok(condition) => match may_evaluate(alloc, &point.context, &mut point.body, next) {
                Err(fault) => Err(fault),
                Ok(next) => Ok(ForHead {
                    first,
                    condition,
                    next,
                }),
            },
        },
    }
}

/// `for`
#[cycle(statements)]
pub(crate) fn for_loop<'a>(
    alloc: Global,
    around: &Around<'a>,
    point: &mut Point,
    label: &'a Option<Name>,
    first: &Option<Box<Expr>>,
    condition: &Option<Box<Expr>>,
    next: &Option<Box<Expr>>,
    body: &'a Stmt,
) -> Result<Box<TStmt>, StmtFault>
    ensures states { IfOk result (λ z. IsStated around.now point.old (tree.For (source.name_of label.now)
        (source.view_boxed first.now) (source.view_boxed condition.now) (source.view_boxed next.now) (source.view_stmt body.now))
        z.value point.new) }
    ensures refused { IfErr result (λ f. IsNone around.now point.old (tree.For (source.name_of label.now)
        (source.view_boxed first.now) (source.view_boxed condition.now) (source.view_boxed next.now) (source.view_stmt body.now))
        f.why) }
{
    match for_head(alloc, point, first, condition, next) {
        Err(fault) => Err(part_fault(fault)),
        Ok(head) => match turn(alloc, around, point, label, body) {
            Err(fault) => Err(fault),
            Ok(y) => {
                let ForHead {
                    first,
                    condition,
                    next,
                } = head;
                for_turns(alloc, first, condition, next, y)
            }
        },
    }
}
