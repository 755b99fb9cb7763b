//! Blocks.

ghost use Rattle.std.specs.Prelude.{IfOk, IfErr, map};
ghost use Rattle.limbo_tree.specs.Stmts as tree;
ghost use Rattle.limbo_tree.specs.View as source;
ghost use Rattle.limbo_typed.specs.View.{view_stmt, view_stmts, view_handler_arm, heads_of, bodies_of};
ghost use Rattle.limbo_heads.specs.Around.{view_around};
ghost use Rattle.limbo_stmt_values.specs.limbo_stating.Around.{in_arm_of};
ghost use Rattle.limbo_stmt_values.specs.limbo_stating.Stating.{StatesBlock, StatesArms, OfHandler};
ghost use Rattle.limbo_stmt_values.specs.limbo_local.Points.{enter};
ghost use Rattle.limbo_stmt_values.specs.limbo_stating.FailsToState.{FailsAll, FailsArms, FailsBlock};
ghost use Rattle.limbo_stmt_values.specs.Whys.{FailsFor};
ghost use Rattle.limbo_stmts.specs.View.{view_point};
ghost use Rattle.limbo_stmts.specs.Stated.{StatesInside};

use crate::arms::handler_arms;
use crate::faults::{boxed, no_memory};
use crate::point::Point;
use crate::statements::state_all;
use limbo_heads::Around;
use limbo_stmt_values::StmtFault;
use limbo_tree::{Block, HandlerArm, Name, Stmt};
use limbo_typed::TStmt;
use std::alloc::Global;

// The statements of a block, in a scope of its own.
#[cycle(statements)]
fn inside<'a>(
    alloc: Global,
    around: &Around<'a>,
    point: &mut Point,
    ss: &'a [Stmt],
) -> Result<Vec<TStmt>, StmtFault>
    ensures states { IfOk result (λ zs. StatesInside (view_around around.now) (view_point point.old) (source.view_stmts ss.now)
        (view_stmts zs.items) (view_point point.new)) }
    ensures refused { IfErr result (λ f. FailsFor f.why
        (FailsAll (view_around around.now) (enter (view_point point.old)) (source.view_stmts ss.now))) }
{
    match point.enter() {
        Err(fault) => Err(fault),
        Ok(()) => match state_all(alloc, around, point, ss) {
            Err(fault) => Err(fault),
            Ok(zs) => {
                point.leave();
                Ok(zs)
            }
        },
    }
}

// The arms of the handler of this number.
#[cycle(statements)]
fn handlers<'a>(
    alloc: Global,
    around: &Around<'a>,
    point: &mut Point,
    caught: u32,
    name: &'a Option<Name>,
    arms: &'a [HandlerArm],
) -> Result<Vec<limbo_typed::HandlerArm>, StmtFault>
    ensures states { IfOk result (λ xs. StatesArms (OfHandler (source.name_of name.now)) (in_arm_of caught (view_around around.now))
        (view_point point.old) (source.arms_of (map source.view_handler_arm arms.now))
        (heads_of (map view_handler_arm xs.items)) (bodies_of (map view_handler_arm xs.items)) (view_point point.new)) }
    ensures refused { IfErr result (λ f. FailsFor f.why (FailsArms (OfHandler (source.name_of name.now))
        (in_arm_of caught (view_around around.now)) (view_point point.old) (source.arms_of (map source.view_handler_arm arms.now)))) }
{
    match around.in_arm_of(alloc, caught) {
        Ok(inner) => handler_arms(alloc, &inner, point, name, arms),
        Err(_) => Err(no_memory()),
    }
}

// A block that handles no exceptions.
#[cycle(statements)]
fn plain<'a>(
    alloc: Global,
    around: &Around<'a>,
    point: &mut Point,
    ss: &'a [Stmt],
) -> Result<Box<TStmt>, StmtFault>
    ensures states { IfOk result (λ z. StatesBlock (view_around around.now) (view_point point.old) (tree.Plain (source.view_stmts ss.now))
        (view_stmt z.value) (view_point point.new)) }
    ensures refused { IfErr result (λ f. FailsFor f.why
        (FailsBlock (view_around around.now) (view_point point.old) (tree.Plain (source.view_stmts ss.now)))) }
{
    match inside(alloc, around, point, ss) {
        Err(fault) => Err(fault),
        Ok(zs) => boxed(alloc, TStmt::Block(zs)),
    }
}

// What handles the exceptions of statements which are these typed ones.
#[cycle(statements)]
fn handled<'a>(
    alloc: Global,
    around: &Around<'a>,
    point: &mut Point,
    ss: &'a [Stmt],
    name: &'a Option<Name>,
    arms: &'a [HandlerArm],
) -> Result<Box<TStmt>, StmtFault>
    ensures states { IfOk result (λ z. StatesBlock (view_around around.now) (view_point point.old)
        (tree.Handled (source.view_stmts ss.now) (source.name_of name.now) (source.arms_of (map source.view_handler_arm arms.now)))
        (view_stmt z.value) (view_point point.new)) }
    ensures refused { IfErr result (λ f. FailsFor f.why (FailsBlock (view_around around.now) (view_point point.old)
        (tree.Handled (source.view_stmts ss.now) (source.name_of name.now) (source.arms_of (map source.view_handler_arm arms.now))))) }
{
    match point.add_catch() {
        Err(fault) => Err(fault),
        Ok(caught) => match inside(alloc, around, point, ss) {
            Err(fault) => Err(fault),
            Ok(body) => match handlers(alloc, around, point, caught, name, arms) {
                Err(fault) => Err(fault),
                Ok(arms) => boxed(alloc, TStmt::Handle { body, caught, arms }),
            },
        },
    }
}

/// The typed statement that a block is, where the checking has come to.
///
/// # Errors
/// Those of its statements, and of what handles their exceptions.
#[cycle(statements)]
pub fn block<'a>(
    alloc: Global,
    around: &Around<'a>,
    point: &mut Point,
    b: &'a Block,
) -> Result<Box<TStmt>, StmtFault>
    ensures states { IfOk result (λ z. StatesBlock (view_around around.now) (view_point point.old) (source.view_block b.now)
        (view_stmt z.value) (view_point point.new)) }
    ensures refused { IfErr result (λ f. FailsFor f.why
        (FailsBlock (view_around around.now) (view_point point.old) (source.view_block b.now))) }
{
    match &b.handler {
        None => plain(alloc, around, point, &b.statements),
        Some(handler) => handled(
            alloc,
            around,
            point,
            &b.statements,
            &handler.name,
            &handler.arms,
        ),
    }
}
