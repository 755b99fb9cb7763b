//! Statements.

ghost use Rattle.std.specs.Prelude.{◌≡◌, ◌&&◌, suc, Some};
ghost use Rattle.limbo_types.specs.View.{view_ty};
ghost use Rattle.limbo_typed.specs.View as typed;
ghost use Rattle.typed_part.specs.Part as part;
ghost use Rattle.typed_part.specs.Seen.{view_inside, depth};

use crate::expressions::is_expr;
use crate::inside::{Inside, Loops, is_around, within};
use crate::kinds::{are_alike, is_nothing, is_of};
use crate::loading::loads;
use crate::places::{takes_value, takes_zero};
use limbo_typed::{TExpr, TStmt};
use limbo_types::Ty;
use limbo_values::Kind;

// Whether `Sys` is loaded, or an expression is evaluated.
fn is_action(inside: Inside, e: &TExpr) -> bool
    ensures { result ≡ part.is_action (view_inside inside.entry) (typed.view_expr e.now) }
{
    loads(inside.system, e).is_some() || is_expr(inside, e)
}

// Whether an expression is an int.
#[tactic(auto, using(crate::proofs::Types::expr_type))]
fn is_condition(inside: Inside, e: &TExpr) -> bool
    ensures { result ≡ part.is_condition (view_inside inside.entry) (typed.view_expr e.now) }
{
    is_expr(inside, e) && is_of(Kind::Int, &e.ty)
}

// What a `for` begins with, or steps by.
#[tactic(auto, using(crate::proofs::Types::the_boxed))]
fn is_value(inside: Inside, e: &Option<Box<TExpr>>) -> bool
    ensures { result ≡ part.is_value (view_inside inside.entry) (typed.view_boxed e.now) }
{
    match e {
        None => true,
        Some(e) => is_expr(inside, e),
    }
}

// The condition of a loop.
#[tactic(auto, using(crate::proofs::Types::the_boxed))]
fn is_test(inside: Inside, e: &Option<Box<TExpr>>) -> bool
    ensures { result ≡ part.is_test (view_inside inside.entry) (typed.view_boxed e.now) }
{
    match e {
        None => true,
        Some(e) => is_condition(inside, e),
    }
}

fn all_take_zero(inside: Inside, variables: &[u32]) -> bool
    ensures { result ≡ part.all (part.takes_zero (view_inside inside.entry)) variables.now }
{
    for variable in variables {
        if !takes_zero(inside, *variable) {
            return false;
        }
    }
    true
}

fn all_take_value(inside: Inside, t: &Ty, variables: &[u32]) -> bool
    ensures { result ≡ part.all (part.takes_value (view_inside inside.entry) (view_ty t.now)) variables.now }
{
    for variable in variables {
        if !takes_value(inside, t, *variable) {
            return false;
        }
    }
    true
}

// A value for variables.
#[tactic(auto, using(crate::proofs::Types::expr_type))]
fn declares_with(inside: Inside, variables: &[u32], e: &TExpr) -> bool
    ensures { result ≡ part.declares (view_inside inside.entry) variables.now (Some (typed.view_expr e.now)) }
{
    is_expr(inside, e) && all_take_value(inside, &e.ty, variables)
}

// A declaration of variables.
#[tactic(auto, using(crate::proofs::Types::the_boxed))]
fn declares(inside: Inside, variables: &[u32], value: &Option<Box<TExpr>>) -> bool
    ensures { result ≡ part.declares (view_inside inside.entry) variables.now (typed.view_boxed value.now) }
{
    match value {
        None => all_take_zero(inside, variables),
        Some(e) => declares_with(inside, variables, e),
    }
}

// A return with a value.
#[tactic(auto, using(crate::proofs::Types::expr_type))]
fn returns_value(inside: Inside, e: &TExpr) -> bool
    ensures { result ≡ part.returns (view_inside inside.entry) (Some (typed.view_expr e.now)) }
{
    is_expr(inside, e) && are_alike(&e.ty, inside.answer)
}

// A return.
#[tactic(auto, using(crate::proofs::Types::the_boxed))]
fn returns(inside: Inside, value: &Option<Box<TExpr>>) -> bool
    ensures { result ≡ part.returns (view_inside inside.entry) (typed.view_boxed value.now) }
{
    match value {
        None => is_nothing(inside.answer),
        Some(e) => returns_value(inside, e),
    }
}

#[cycle(statements)]
fn is_choice(
    inside: Inside,
    loops: Loops,
    condition: &TExpr,
    then: &[TStmt],
    other: &[TStmt],
) -> bool
    ensures { result ≡ (part.is_condition (view_inside inside.entry) (typed.view_expr condition.now)
        && part.are_stmts (view_inside inside.entry) (depth loops.entry) (typed.view_stmts then.now)
        && part.are_stmts (view_inside inside.entry) (depth loops.entry) (typed.view_stmts other.now)) }
{
    is_condition(inside, condition)
        && are_stmts(inside, loops, then)
        && are_stmts(inside, loops, other)
}

// The body of a loop.
#[cycle(statements)]
fn is_body(inside: Inside, loops: Loops, body: &[TStmt]) -> bool
    ensures { result ≡ part.are_stmts (view_inside inside.entry) (suc (depth loops.entry)) (typed.view_stmts body.now) }
{
    are_stmts(inside, within(&loops), body)
}

// A `for` with this head.
#[cycle(statements)]
fn is_for(
    inside: Inside,
    loops: Loops,
    first: &Option<Box<TExpr>>,
    condition: &Option<Box<TExpr>>,
    next: &Option<Box<TExpr>>,
    body: &[TStmt],
) -> bool
    ensures { result ≡ (part.is_value (view_inside inside.entry) (typed.view_boxed first.now)
        && part.is_test (view_inside inside.entry) (typed.view_boxed condition.now)
        && part.is_value (view_inside inside.entry) (typed.view_boxed next.now)
        && part.are_stmts (view_inside inside.entry) (suc (depth loops.entry)) (typed.view_stmts body.now)) }
{
    is_value(inside, first)
        && is_test(inside, condition)
        && is_value(inside, next)
        && is_body(inside, loops, body)
}

#[cycle(statements)]
fn is_stmt(inside: Inside, loops: Loops, s: &TStmt) -> bool
    ensures { result ≡ part.is_stmt (view_inside inside.entry) (depth loops.entry) (typed.view_stmt s.now) }
{
    match s {
        TStmt::Empty => true,
        TStmt::Block(body) => are_stmts(inside, loops, body),
        TStmt::Declare { variables, value } => declares(inside, variables, value),
        TStmt::Eval(e) => is_action(inside, e),
        TStmt::If {
            condition,
            then,
            other,
        } => is_choice(inside, loops, condition, then, other),
        TStmt::While { condition, body } => {
            is_test(inside, condition) && is_body(inside, loops, body)
        }
        TStmt::Do { body, condition } => {
            is_body(inside, loops, body) && is_test(inside, condition)
        }
        TStmt::For {
            first,
            condition,
            next,
            body,
        } => is_for(inside, loops, first, condition, next, body),
        TStmt::Break(number) => is_around(loops, *number),
        TStmt::Continue(number) => is_around(loops, *number),
        TStmt::Return(value) => returns(inside, value),
        _ => false,
    }
}

/// Whether statements are in the part, within these loops.
#[cycle(statements)]
pub(crate) fn are_stmts(inside: Inside, loops: Loops, ss: &[TStmt]) -> bool
    ensures { result ≡ part.are_stmts (view_inside inside.entry) (depth loops.entry) (typed.view_stmts ss.now) }
{
    for s in ss {
        if !is_stmt(inside, loops, s) {
            return false;
        }
    }
    true
}
