//! Jumps out of loops and branches.

ghost use Rattle.std.specs.Prelude.{◌≡◌, ℕ, suc, nat_eq, map};
ghost use Rattle.limbo_typed.specs.View.{view_stmt, view_case_arm, view_alt_arm, view_pick_arm, view_handler_arm, stmts_of, bodies_of};
ghost use Rattle.limbo_paths.specs.Walking as walking;
ghost use Rattle.limbo_paths.specs.Walking.{IsLevel, is_break};

use limbo_typed::{AltArm, CaseArm, HandlerArm, PickArm, TStmt};

/// Which jump.
#[derive(Clone, Copy)]
pub(crate) enum Jump {
    Break,
    Continue,
}

fn is_break(jump: Jump) -> bool
    ensures { result ≡ is_break jump }
{
    match jump {
        Jump::Break => true,
        Jump::Continue => false,
    }
}

// The same loop or branch, seen from within one more.
fn deeper(level: Option<u32>) -> Option<u32>
    ensures { (n : ℕ) → IsLevel level n → IsLevel result (suc n) }
{
    match level {
        Some(number) => number.checked_add(1),
        None => None,
    }
}

// Whether a jump with this number goes there.
fn is_at(level: Option<u32>, number: u32) -> bool
    ensures { (n : ℕ) → IsLevel level n → result ≡ nat_eq number n }
{
    match level {
        Some(there) => number == there,
        None => false,
    }
}

// Whether a statement is this jump.
fn is_jump(s: &TStmt, jump: Jump, level: Option<u32>) -> bool
    ensures { (n : ℕ) → IsLevel level n → result ≡ walking.jumps jump n (view_stmt s.now) }
{
    match s {
        TStmt::Break(number) => is_break(jump) && is_at(level, *number),
        TStmt::Continue(number) => !is_break(jump) && is_at(level, *number),
        _ => false,
    }
}

// Whether a jump to a loop or branch around stands in a statement.
#[cycle(jumps)]
fn has(s: &TStmt, jump: Jump, level: Option<u32>) -> bool
    ensures { (n : ℕ) → IsLevel level n → result ≡ walking.has jump n (view_stmt s.now) }
{
    match s {
        TStmt::Block(body) => any_has(body, jump, level),
        TStmt::If { then, other, .. } => {
            any_has(then, jump, level) || any_has(other, jump, level)
        }
        TStmt::While { body, .. } => any_has(body, jump, deeper(level)),
        TStmt::Do { body, .. } => any_has(body, jump, deeper(level)),
        TStmt::For { body, .. } => any_has(body, jump, deeper(level)),
        TStmt::Case { arms, .. } => case_has(arms, jump, deeper(level)),
        TStmt::Alt { arms } => alt_has(arms, jump, deeper(level)),
        TStmt::Pick { arms, .. } => pick_has(arms, jump, deeper(level)),
        TStmt::Handle { body, arms, .. } => {
            any_has(body, jump, level) || handler_has(arms, jump, level)
        }
        _ => is_jump(s, jump, level),
    }
}

/// Whether a jump to a loop or branch around stands in one of some statements.
#[cycle(jumps)]
pub(crate) fn any_has(ss: &[TStmt], jump: Jump, level: Option<u32>) -> bool
    ensures { (n : ℕ) → IsLevel level n → result ≡ walking.has_any jump n (stmts_of (map view_stmt ss.now)) }
{
    for s in ss {
        if has(s, jump, level) {
            return true;
        }
    }
    false
}

/// The same of the arms of a `case`.
#[cycle(jumps)]
pub(crate) fn case_has(arms: &[CaseArm], jump: Jump, level: Option<u32>) -> bool
    ensures { (n : ℕ) → IsLevel level n → result ≡ walking.has_in jump n (bodies_of (map view_case_arm arms.now)) }
{
    for arm in arms {
        if any_has(&arm.body, jump, level) {
            return true;
        }
    }
    false
}

/// The same of the arms of an `alt`.
#[cycle(jumps)]
pub(crate) fn alt_has(arms: &[AltArm], jump: Jump, level: Option<u32>) -> bool
    ensures { (n : ℕ) → IsLevel level n → result ≡ walking.has_in jump n (bodies_of (map view_alt_arm arms.now)) }
{
    for arm in arms {
        if any_has(&arm.body, jump, level) {
            return true;
        }
    }
    false
}

/// The same of the arms of a `pick`.
#[cycle(jumps)]
pub(crate) fn pick_has(arms: &[PickArm], jump: Jump, level: Option<u32>) -> bool
    ensures { (n : ℕ) → IsLevel level n → result ≡ walking.has_in jump n (bodies_of (map view_pick_arm arms.now)) }
{
    for arm in arms {
        if any_has(&arm.body, jump, level) {
            return true;
        }
    }
    false
}

// The same of the arms of a handler.
#[cycle(jumps)]
fn handler_has(arms: &[HandlerArm], jump: Jump, level: Option<u32>) -> bool
    ensures { (n : ℕ) → IsLevel level n → result ≡ walking.has_in jump n (bodies_of (map view_handler_arm arms.now)) }
{
    for arm in arms {
        if any_has(&arm.body, jump, level) {
            return true;
        }
    }
    false
}
