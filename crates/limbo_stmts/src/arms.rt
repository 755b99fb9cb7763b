//! The arms of branches and handlers.

ghost use Rattle.std.specs.Prelude.{IfOk, IfErr, map};
ghost use Rattle.limbo_tree.specs.View as source;
ghost use Rattle.limbo_types.specs.View.{view_ty};
ghost use Rattle.limbo_typed.specs.View.{view_case_arm, view_alt_arm, view_pick_arm, view_handler_arm, heads_of, bodies_of};
ghost use Rattle.limbo_heads.specs.Around.{view_around};
ghost use Rattle.limbo_stmt_values.specs.limbo_stating.Stating.{StatesArms, OfCase, OfAlt, OfPick, OfHandler};
ghost use Rattle.limbo_stmt_values.specs.limbo_stating.FailsToState.{FailsArms};
ghost use Rattle.limbo_stmt_values.specs.Whys.{FailsFor};
ghost use Rattle.limbo_stmts.specs.View.{view_point};
ghost use Rattle.limbo_stmts.specs.Stated.{StatesArm, FailsArm};

use crate::faults::no_memory;
use crate::point::Point;
use crate::statements::state_all;
use inf_text::Text;
use limbo_alts::alt_head;
use limbo_heads::{Around, HandlerStart, PickStart, case_patterns, handler_head, pick_head};
use limbo_stmt_values::{StmtFault, part_fault};
use limbo_tree::Name;
use limbo_typed::{AltArm, CaseArm, HandlerArm, PickArm};
use limbo_types::Ty;
use std::alloc::Global;

// An arm of a `case` of values of a type.
#[cycle(statements)]
fn case_arm<'a>(
    alloc: Global,
    around: &Around<'a>,
    point: &mut Point,
    t: &Ty,
    arm: &'a limbo_tree::CaseArm,
) -> Result<CaseArm, StmtFault>
    ensures states { IfOk result (λ x. StatesArm (OfCase (view_ty t.now)) (view_around around.now) (view_point point.old)
        (source.view_case_arm arm.now) (view_case_arm x) (view_point point.new)) }
    ensures refused { IfErr result (λ f. FailsFor f.why (FailsArm (OfCase (view_ty t.now)) (view_around around.now) (view_point point.old)
        (source.view_case_arm arm.now))) }
{
    match point.enter() {
        Err(fault) => Err(fault),
        Ok(()) => match case_patterns(alloc, &point.context, &mut point.body, &arm.patterns, t) {
            Err(fault) => Err(fault),
            Ok(patterns) => match state_all(alloc, around, point, &arm.body) {
                Err(fault) => Err(fault),
                Ok(body) => {
                    point.leave();
                    Ok(CaseArm { patterns, body })
                }
            },
        },
    }
}

/// The arms of a `case` of values of a type.
///
/// # Errors
/// Those of the first that fails, by its head or its statements.
#[cycle(statements)]
pub(crate) fn case_arms<'a>(
    alloc: Global,
    around: &Around<'a>,
    point: &mut Point,
    t: &Ty,
    arms: &'a [limbo_tree::CaseArm],
) -> Result<Vec<CaseArm>, StmtFault>
    ensures states { IfOk result (λ xs. StatesArms (OfCase (view_ty t.now)) (view_around around.now) (view_point point.old)
        (source.arms_of (map source.view_case_arm arms.now))
        (heads_of (map view_case_arm xs.items)) (bodies_of (map view_case_arm xs.items)) (view_point point.new)) }
    ensures refused { IfErr result (λ f. FailsFor f.why (FailsArms (OfCase (view_ty t.now)) (view_around around.now) (view_point point.old)
        (source.arms_of (map source.view_case_arm arms.now)))) }
{
    let mut xs = Vec::new(alloc);
    for arm in arms {
        match case_arm(alloc, around, point, t, arm) {
            Err(fault) => return Err(fault),
            Ok(x) => match xs.push(x) {
                Ok(()) => {}
                Err(_) => return Err(no_memory()),
            },
        }
    }
    Ok(xs)
}

// An arm of an `alt`.
#[cycle(statements)]
fn alt_arm<'a>(
    alloc: Global,
    around: &Around<'a>,
    point: &mut Point,
    arm: &'a limbo_tree::AltArm,
) -> Result<AltArm, StmtFault>
    ensures states { IfOk result (λ x. StatesArm OfAlt (view_around around.now) (view_point point.old)
        (source.view_alt_arm arm.now) (view_alt_arm x) (view_point point.new)) }
    ensures refused { IfErr result (λ f. FailsFor f.why (FailsArm OfAlt (view_around around.now) (view_point point.old)
        (source.view_alt_arm arm.now))) }
{
    match point.enter() {
        Err(fault) => Err(fault),
        Ok(()) => match alt_head(alloc, &point.context, &mut point.body, &arm.head) {
            Err(fault) => Err(fault),
            Ok(head) => match state_all(alloc, around, point, &arm.body) {
                Err(fault) => Err(fault),
                Ok(body) => {
                    point.leave();
                    Ok(AltArm { head, body })
                }
            },
        },
    }
}

/// The arms of an `alt`.
///
/// # Errors
/// Those of the first that fails, by its head or its statements.
#[cycle(statements)]
pub(crate) fn alt_arms<'a>(
    alloc: Global,
    around: &Around<'a>,
    point: &mut Point,
    arms: &'a [limbo_tree::AltArm],
) -> Result<Vec<AltArm>, StmtFault>
    ensures states { IfOk result (λ xs. StatesArms OfAlt (view_around around.now) (view_point point.old)
        (source.arms_of (map source.view_alt_arm arms.now)) (heads_of (map view_alt_arm xs.items)) (bodies_of (map view_alt_arm xs.items))
        (view_point point.new)) }
    ensures refused { IfErr result (λ f. FailsFor f.why (FailsArms OfAlt (view_around around.now) (view_point point.old)
        (source.arms_of (map source.view_alt_arm arms.now)))) }
{
    let mut xs = Vec::new(alloc);
    for arm in arms {
        match alt_arm(alloc, around, point, arm) {
            Err(fault) => return Err(fault),
            Ok(x) => match xs.push(x) {
                Ok(()) => {}
                Err(_) => return Err(no_memory()),
            },
        }
    }
    Ok(xs)
}

// An arm of a `pick` of an adt.
#[cycle(statements)]
fn pick_arm<'a>(
    alloc: Global,
    around: &Around<'a>,
    point: &mut Point,
    name: &Text,
    adt: u32,
    arm: &'a limbo_tree::PickArm,
) -> Result<PickArm, StmtFault>
    ensures states { IfOk result (λ x. StatesArm (OfPick name.now adt) (view_around around.now) (view_point point.old)
        (source.view_pick_arm arm.now) (view_pick_arm x) (view_point point.new)) }
    ensures refused { IfErr result (λ f. FailsFor f.why (FailsArm (OfPick name.now adt) (view_around around.now) (view_point point.old)
        (source.view_pick_arm arm.now))) }
{
    match point.enter() {
        Err(fault) => Err(fault),
        Ok(()) => match pick_head(
            alloc,
            &point.context,
            &mut point.body,
            name,
            adt,
            &arm.names,
        ) {
            Err(fault) => Err(fault),
            Ok(PickStart { variants, variable }) => match state_all(
                alloc, around, point, &arm.body,
            ) {
                Err(fault) => Err(fault),
                Ok(body) => {
                    point.leave();
                    Ok(PickArm {
                        variants,
                        variable,
                        body,
                    })
                }
            },
        },
    }
}

/// The arms of a `pick` of an adt.
///
/// # Errors
/// Those of the first that fails, by its head or its statements.
#[cycle(statements)]
pub(crate) fn pick_arms<'a>(
    alloc: Global,
    around: &Around<'a>,
    point: &mut Point,
    name: &Text,
    adt: u32,
    arms: &'a [limbo_tree::PickArm],
) -> Result<Vec<PickArm>, StmtFault>
    ensures states { IfOk result (λ xs. StatesArms (OfPick name.now adt) (view_around around.now) (view_point point.old)
        (source.arms_of (map source.view_pick_arm arms.now))
        (heads_of (map view_pick_arm xs.items)) (bodies_of (map view_pick_arm xs.items)) (view_point point.new)) }
    ensures refused { IfErr result (λ f. FailsFor f.why (FailsArms (OfPick name.now adt) (view_around around.now) (view_point point.old)
        (source.arms_of (map source.view_pick_arm arms.now)))) }
{
    let mut xs = Vec::new(alloc);
    for arm in arms {
        match pick_arm(alloc, around, point, name, adt, arm) {
            Err(fault) => return Err(fault),
            Ok(x) => match xs.push(x) {
                Ok(()) => {}
                Err(_) => return Err(no_memory()),
            },
        }
    }
    Ok(xs)
}

// An arm of a handler, which may have a name.
#[cycle(statements)]
fn handler_arm<'a>(
    alloc: Global,
    around: &Around<'a>,
    point: &mut Point,
    name: &'a Option<Name>,
    arm: &'a limbo_tree::HandlerArm,
) -> Result<HandlerArm, StmtFault>
    ensures states { IfOk result (λ x. StatesArm (OfHandler (source.name_of name.now)) (view_around around.now) (view_point point.old)
        (source.view_handler_arm arm.now) (view_handler_arm x) (view_point point.new)) }
    ensures refused { IfErr result (λ f. FailsFor f.why
        (FailsArm (OfHandler (source.name_of name.now)) (view_around around.now) (view_point point.old)
        (source.view_handler_arm arm.now))) }
{
    match point.enter() {
        Err(fault) => Err(fault),
        Ok(()) => match handler_head(alloc, &point.context, &mut point.body, name, &arm.patterns) {
            Err(fault) => Err(part_fault(fault)),
            Ok(HandlerStart { patterns, variable }) => match state_all(
                alloc, around, point, &arm.body,
            ) {
                Err(fault) => Err(fault),
                Ok(body) => {
                    point.leave();
                    Ok(HandlerArm {
                        patterns,
                        variable,
                        body,
                    })
                }
            },
        },
    }
}

/// The arms of a handler, which may have a name.
///
/// # Errors
/// Those of the first that fails, by its head or its statements.
#[cycle(statements)]
pub(crate) fn handler_arms<'a>(
    alloc: Global,
    around: &Around<'a>,
    point: &mut Point,
    name: &'a Option<Name>,
    arms: &'a [limbo_tree::HandlerArm],
) -> Result<Vec<HandlerArm>, StmtFault>
    ensures states { IfOk result (λ xs. StatesArms (OfHandler (source.name_of name.now)) (view_around around.now) (view_point point.old)
        (source.arms_of (map source.view_handler_arm arms.now))
        (heads_of (map view_handler_arm xs.items)) (bodies_of (map view_handler_arm xs.items)) (view_point point.new)) }
    ensures refused { IfErr result (λ f. FailsFor f.why
        (FailsArms (OfHandler (source.name_of name.now)) (view_around around.now) (view_point point.old)
        (source.arms_of (map source.view_handler_arm arms.now)))) }
{
    let mut xs = Vec::new(alloc);
    for arm in arms {
        match handler_arm(alloc, around, point, name, arm) {
            Err(fault) => return Err(fault),
            Ok(x) => match xs.push(x) {
                Ok(()) => {}
                Err(_) => return Err(no_memory()),
            },
        }
    }
    Ok(xs)
}
