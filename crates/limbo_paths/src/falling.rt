//! Whether control goes on behind statements.

ghost use Rattle.std.specs.Prelude.{◌≡◌, ◌↔◌, ◌||◌, IsTrue, false, map};
ghost use Rattle.limbo_layout.specs.View.{view_defs};
ghost use Rattle.limbo_adts.specs.Table.{defs_of};
ghost use Rattle.limbo_typed.specs.View.{view_stmt, view_stmts, view_case_arm, view_alt_arm, view_pick_arm, view_handler_arm, bodies_of};
ghost use Rattle.limbo_paths.specs.Paths.{LeaveAll, Through, Answers};
ghost use Rattle.limbo_paths.specs.declared.jumps.Jump.TheVariants as jump;
ghost use Rattle.limbo_paths.specs.Walking as walking;
ghost use Rattle.limbo_paths.specs.Walking.{is_some, has_any};

use crate::jumps::{Jump, alt_has, any_has, case_has, pick_has};
use crate::taking::{takes_each, takes_rest, variants};
use limbo_adts::Adts;
use limbo_layout::AdtDef;
use limbo_typed::{AltArm, CaseArm, HandlerArm, PickArm, TExpr, TStmt};

// Whether a loop whose condition is tested before its body is left: the condition fails, or a `break` ends it.
fn loop_falls(condition: &Option<Box<TExpr>>, body: &[TStmt]) -> bool
    ensures { result ≡ (is_some condition.now || has_any jump.Break 0 (view_stmts body.now)) }
{
    condition.is_some() || any_has(body, Jump::Break, Some(0))
}

// Whether control goes on behind a statement.
#[cycle(falling)]
fn falls(defs: &[AdtDef], s: &TStmt) -> bool
    ensures { result ≡ walking.falls (view_defs defs.now) (view_stmt s.now) }
{
    match s {
        TStmt::Empty => true,
        TStmt::Declare { .. } => true,
        TStmt::Eval(_) => true,
        TStmt::Spawn(_) => true,
        TStmt::Block(body) => all_fall(defs, body),
        TStmt::If { then, other, .. } => all_fall(defs, then) || all_fall(defs, other),
        TStmt::While { condition, body } => loop_falls(condition, body),
        TStmt::For {
            condition,
            body,
            ..
        } => loop_falls(condition, body),
        TStmt::Do { body, condition } => turn_falls(defs, body, condition),
        TStmt::Case { arms, .. } => !takes_rest(arms) || case_falls(defs, arms),
        TStmt::Alt { arms } => alt_falls(defs, arms),
        TStmt::Pick { value, arms } => {
            !takes_each(arms, variants(defs, &value.ty)) || pick_falls(defs, arms)
        }
        TStmt::Handle { body, arms, .. } => all_fall(defs, body) || handler_falls(defs, arms),
        _ => false,
    }
}

// Whether a loop is left whose condition is tested behind its body.
#[cycle(falling)]
fn turn_falls(defs: &[AdtDef], body: &[TStmt], condition: &Option<Box<TExpr>>) -> bool
    ensures { result ≡ walking.turn_falls (view_defs defs.now) (view_stmts body.now) (is_some condition.now) }
{
    if any_has(body, Jump::Break, Some(0)) {
        return true;
    }
    condition.is_some() && (any_has(body, Jump::Continue, Some(0)) || all_fall(defs, body))
}

// Whether control goes through statements, one after the other.
#[cycle(falling)]
fn all_fall(defs: &[AdtDef], ss: &[TStmt]) -> bool
    ensures { result ≡ walking.all_fall (view_defs defs.now) (view_stmts ss.now) }
{
    for s in ss {
        if !falls(defs, s) {
            return false;
        }
    }
    true
}

// Whether control goes on behind one of the arms of a `case`, or one has a `break` of it.
#[cycle(falling)]
fn case_falls(defs: &[AdtDef], arms: &[CaseArm]) -> bool
    ensures { result ≡ walking.arms_fall (view_defs defs.now) (bodies_of (map view_case_arm arms.now)) }
{
    for arm in arms {
        if all_fall(defs, &arm.body) {
            return true;
        }
    }
    case_has(arms, Jump::Break, Some(0))
}

// The same of an `alt`.
#[cycle(falling)]
fn alt_falls(defs: &[AdtDef], arms: &[AltArm]) -> bool
    ensures { result ≡ walking.arms_fall (view_defs defs.now) (bodies_of (map view_alt_arm arms.now)) }
{
    for arm in arms {
        if all_fall(defs, &arm.body) {
            return true;
        }
    }
    alt_has(arms, Jump::Break, Some(0))
}

// The same of a `pick`.
#[cycle(falling)]
fn pick_falls(defs: &[AdtDef], arms: &[PickArm]) -> bool
    ensures { result ≡ walking.arms_fall (view_defs defs.now) (bodies_of (map view_pick_arm arms.now)) }
{
    for arm in arms {
        if all_fall(defs, &arm.body) {
            return true;
        }
    }
    pick_has(arms, Jump::Break, Some(0))
}

// Whether control goes on behind one of the arms of a handler.
#[cycle(falling)]
fn handler_falls(defs: &[AdtDef], arms: &[HandlerArm]) -> bool
    ensures { result ≡ walking.some_falls (view_defs defs.now) (bodies_of (map view_handler_arm arms.now)) }
{
    for arm in arms {
        if all_fall(defs, &arm.body) {
            return true;
        }
    }
    false
}

/// Whether a path of a body runs to its end. A function with an answer mustn't have such a path.
pub fn falls_through(adts: &Adts, body: &[TStmt]) -> bool
    ensures through { IsTrue result ↔ LeaveAll (defs_of adts.now) (view_stmts body.now) Through }
    ensures answers { (result ≡ false) ↔ Answers (defs_of adts.now) (view_stmts body.now) }
{
    all_fall(adts.defs(), body)
}
