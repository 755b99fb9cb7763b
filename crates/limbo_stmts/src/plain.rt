//! Statements that hold no others.

ghost use Rattle.std.specs.Prelude.{None, Some, IfOk, IfErr};
ghost use Rattle.limbo_tree.specs.Stmts as tree;
ghost use Rattle.limbo_tree.specs.View as source;
ghost use Rattle.limbo_stmts.specs.Stated.{IsStated, IsNone};

use crate::faults::{boxed, no_memory};
use crate::point::Point;
use inf_text::Span;
use limbo_causes::TypingFault;
use limbo_heads::{Around, innermost_continued, innermost_labelled};
use limbo_interfaces::declare;
use limbo_raising::raise;
use limbo_refusals::clash_of;
use limbo_stmt_values::{StmtFault, Why, evaluate, part_fault, returned, spawned};
use limbo_tree::{Decl, Expr, Name};
use limbo_typed::TStmt;
use limbo_types::{Ty, equal};
use std::alloc::Global;

/// A declaration.
pub(crate) fn declared(
    alloc: Global,
    around: &Around,
    point: &mut Point,
    d: &Decl,
) -> Result<Box<TStmt>, StmtFault>
    ensures states { IfOk result (λ z. IsStated around.now point.old (tree.Declare (source.view_decl d.now)) z.value point.new) }
    ensures refused { IfErr result (λ f. IsNone around.now point.old (tree.Declare (source.view_decl d.now)) f.why) }
{
    match declare(
        alloc,
        &mut point.context,
        &mut point.body,
        around.module_name,
        d,
    ) {
        Ok(z) => Ok(z),
        Err(fault) => Err(part_fault(fault)),
    }
}

/// An expression that is evaluated for what it does.
#[tactic(auto, using(limbo_typed::proofs::View::the_stmts))]
pub(crate) fn evaluated(
    alloc: Global,
    around: &Around,
    point: &mut Point,
    e: &Expr,
) -> Result<Box<TStmt>, StmtFault>
    ensures states { IfOk result (λ z. IsStated around.now point.old (tree.Eval (source.view_expr e.now)) z.value point.new) }
    ensures refused { IfErr result (λ f. IsNone around.now point.old (tree.Eval (source.view_expr e.now)) f.why) }
{
    match evaluate(alloc, &point.context, &mut point.body, e) {
        Ok(x) => boxed(alloc, TStmt::Eval(x)),
        Err(fault) => Err(part_fault(fault)),
    }
}

/// `break`
#[tactic(auto, using(limbo_typed::proofs::View::the_stmts))]
pub(crate) fn broken(
    alloc: Global,
    around: &Around,
    point: &Point,
    label: &Option<Name>,
    at: Span,
) -> Result<Box<TStmt>, StmtFault>
    ensures states { IfOk result (λ z. IsStated around.now point.now (tree.Break (source.name_of label.now)) z.value point.now) }
    ensures refused { IfErr result (λ f. IsNone around.now point.now (tree.Break (source.name_of label.now)) f.why) }
{
    match innermost_labelled(&around.turns, label) {
        Some(place) => match u32::try_from(place) {
            Ok(number) => boxed(alloc, TStmt::Break(number)),
            Err(_) => Err(no_memory()),
        },
        None => Err(StmtFault {
            why: Why::BadLabel,
            at,
        }),
    }
}

/// `continue`
#[tactic(auto, using(limbo_typed::proofs::View::the_stmts))]
pub(crate) fn continued(
    alloc: Global,
    around: &Around,
    point: &Point,
    label: &Option<Name>,
    at: Span,
) -> Result<Box<TStmt>, StmtFault>
    ensures states { IfOk result (λ z. IsStated around.now point.now (tree.Continue (source.name_of label.now)) z.value point.now) }
    ensures refused { IfErr result (λ f. IsNone around.now point.now (tree.Continue (source.name_of label.now)) f.why) }
{
    match innermost_continued(&around.turns, label) {
        Some(place) => match u32::try_from(place) {
            Ok(number) => boxed(alloc, TStmt::Continue(number)),
            Err(_) => Err(no_memory()),
        },
        None => Err(StmtFault {
            why: Why::BadLabel,
            at,
        }),
    }
}

// `return;`
#[tactic(auto, using(limbo_typed::proofs::View::the_stmts, limbo_types::proofs::View::the_types))]
fn return_nothing(
    alloc: Global,
    around: &Around,
    point: &Point,
    at: Span,
) -> Result<Box<TStmt>, StmtFault>
    ensures states { IfOk result (λ z. IsStated around.now point.now (tree.Return None) z.value point.now) }
    ensures refused { IfErr result (λ f. IsNone around.now point.now (tree.Return None) f.why) }
{
    if equal(around.answer, &Ty::Nothing) {
        boxed(alloc, TStmt::Return(None))
    } else {
        Err(StmtFault {
            why: Why::NoReturn,
            at,
        })
    }
}

// `return value;`
#[tactic(auto, using(limbo_typed::proofs::View::the_stmts, limbo_typed::proofs::View::the_exprs))]
fn return_value(
    alloc: Global,
    around: &Around,
    point: &mut Point,
    e: &Expr,
) -> Result<Box<TStmt>, StmtFault>
    ensures states { IfOk result (λ z. IsStated around.now point.old (tree.Return (Some (source.view_expr e.now))) z.value point.new) }
    ensures refused { IfErr result (λ f. IsNone around.now point.old (tree.Return (Some (source.view_expr e.now))) f.why) }
{
    match returned(alloc, &point.context, &mut point.body, e, around.answer) {
        Ok(x) => boxed(alloc, TStmt::Return(Some(x))),
        Err(fault) => Err(part_fault(fault)),
    }
}

/// `return`, with a value or without.
pub(crate) fn returns(
    alloc: Global,
    around: &Around,
    point: &mut Point,
    value: &Option<Box<Expr>>,
    at: Span,
) -> Result<Box<TStmt>, StmtFault>
    ensures states { IfOk result (λ z. IsStated around.now point.old (tree.Return (source.view_boxed value.now)) z.value point.new) }
    ensures refused { IfErr result (λ f. IsNone around.now point.old (tree.Return (source.view_boxed value.now)) f.why) }
{
    match value {
        None => return_nothing(alloc, around, point, at),
        Some(e) => return_value(alloc, around, point, e),
    }
}

/// `spawn`
#[tactic(auto, using(limbo_typed::proofs::View::the_stmts))]
pub(crate) fn spawns(
    alloc: Global,
    around: &Around,
    point: &mut Point,
    e: &Expr,
) -> Result<Box<TStmt>, StmtFault>
    ensures states { IfOk result (λ z. IsStated around.now point.old (tree.Spawn (source.view_expr e.now)) z.value point.new) }
    ensures refused { IfErr result (λ f. IsNone around.now point.old (tree.Spawn (source.view_expr e.now)) f.why) }
{
    match spawned(alloc, &point.context, &mut point.body, e) {
        Ok(x) => boxed(alloc, TStmt::Spawn(x)),
        Err(fault) => Err(part_fault(fault)),
    }
}

// `raise;`
#[tactic(auto, using(limbo_typed::proofs::View::the_stmts))]
fn raise_again(
    alloc: Global,
    around: &Around,
    point: &Point,
    at: Span,
) -> Result<Box<TStmt>, StmtFault>
    ensures states { IfOk result (λ z. IsStated around.now point.now (tree.Raise None) z.value point.now) }
    ensures refused { IfErr result (λ f. IsNone around.now point.now (tree.Raise None) f.why) }
{
    match around.caught {
        Some(caught) => boxed(alloc, TStmt::RaiseAgain { caught }),
        None => Err(part_fault(TypingFault::refused(
            clash_of(alloc, &Ty::Nothing, &Ty::Nothing),
            at,
        ))),
    }
}

// `raise value;`
fn raise_value(
    alloc: Global,
    around: &Around,
    point: &mut Point,
    e: &Expr,
) -> Result<Box<TStmt>, StmtFault>
    ensures states { IfOk result (λ z. IsStated around.now point.old (tree.Raise (Some (source.view_expr e.now))) z.value point.new) }
    ensures refused { IfErr result (λ f. IsNone around.now point.old (tree.Raise (Some (source.view_expr e.now))) f.why) }
{
    match raise(alloc, &point.context, &mut point.body, e) {
        Ok(z) => boxed(alloc, z),
        Err(fault) => Err(part_fault(fault)),
    }
}

/// `raise`, with a value or without.
pub(crate) fn raises(
    alloc: Global,
    around: &Around,
    point: &mut Point,
    value: &Option<Box<Expr>>,
    at: Span,
) -> Result<Box<TStmt>, StmtFault>
    ensures states { IfOk result (λ z. IsStated around.now point.old (tree.Raise (source.view_boxed value.now)) z.value point.new) }
    ensures refused { IfErr result (λ f. IsNone around.now point.old (tree.Raise (source.view_boxed value.now)) f.why) }
{
    match value {
        None => raise_again(alloc, around, point, at),
        Some(e) => raise_value(alloc, around, point, e),
    }
}
