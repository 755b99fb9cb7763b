//! Whether the frames of functions and the variables of a module fit.

ghost use Rattle.std.specs.Prelude.{◌≡◌, ◌↔◌, ◌+◌, ◌<◌, ◌≤◌, IfErr, IfOk, IsFalse, IsTrue, MatchOption, OnOk, map};
ghost use Rattle.limbo_types.specs.View.{view_ty};
ghost use Rattle.limbo_layout.specs.View.{view_defs};
ghost use Rattle.limbo_typed.specs.View.{view_boxed, view_expr, view_function, view_module, view_stmt, view_stmts, view_var};
ghost use Rattle.core_frames.specs.Sizes.{assignment_size, declared_size, expr_size, frame_size, laid_size, largest_frame};
ghost use Rattle.core_sizing.specs.declared.fault.SizeFault.TheVariants as fault;
ghost use Rattle.core_frames.specs.Sizes.{some_size, stmt_size, stmts_size, types_in, variable_size, variables_size, FrameTooLarge};

use crate::fault::SizeFault;
use crate::sizes::{expr_leaves, node_leaves};
use limbo_typed::{TExpr, TFn, TStmt, TVar, TypedModule};
use limbo_types::Ty;
use std::alloc::Global;
use value_extents::Extents;

// A frame has at most so many bytes, and so many of them are the same in each.
const LARGEST_FRAME: u32 = 65_536;

const FRAME_HEAD: u32 = 40;

fn expr_fits(extents: &Extents<'_>, e: &TExpr, budget: u32) -> bool
    requires { budget ≤ largest_frame }
    ensures { IsTrue result ↔ (expr_size (view_defs extents.now) (view_expr e.now) ≤ budget) }
{
    expr_leaves(extents, e, budget).is_some()
}

#[tactic(auto, using(limbo_typed::proofs::View::the_stmts))]
fn optional_fits(extents: &Extents<'_>, e: &Option<Box<TExpr>>, budget: u32) -> bool
    requires { budget ≤ largest_frame }
    ensures { IsTrue result ↔ (some_size (view_defs extents.now) (view_boxed e.now) ≤ budget) }
{
    match e {
        None => true,
        Some(e) => expr_fits(extents, e, budget),
    }
}

// What is left behind a node of a variable: one that isn't there counts as an int.
fn variable_leaves(
    extents: &Extents<'_>,
    variables: &[TVar],
    variable: u32,
    budget: u32,
) -> Option<u32>
    requires { budget ≤ largest_frame }
    ensures { MatchOption result
        (budget < variable_size (view_defs extents.now) (types_in (map view_var variables.now)) variable)
        (λ rest. rest + variable_size (view_defs extents.now) (types_in (map view_var variables.now)) variable ≡ budget) }
{
    match variables.get(variable as usize) {
        Some(it) => node_leaves(extents, &it.ty, budget),
        None => node_leaves(extents, &Ty::Int, budget),
    }
}

fn variables_leave(
    extents: &Extents<'_>,
    variables: &[TVar],
    declared: &[u32],
    budget: u32,
) -> Option<u32>
    requires { budget ≤ largest_frame }
    ensures { MatchOption result
        (budget < variables_size (view_defs extents.now) (types_in (map view_var variables.now)) declared.now)
        (λ rest. rest + variables_size (view_defs extents.now) (types_in (map view_var variables.now)) declared.now ≡ budget) }
{
    let mut rest = budget;
    for variable in declared {
        rest = variable_leaves(extents, variables, *variable, rest)?;
    }
    Some(rest)
}

// What is left behind the assignment of a declaration, which is of the type of its first variable.
#[tactic(auto, using(limbo_types::proofs::View::the_types))]
fn assignment_leaves(
    extents: &Extents<'_>,
    variables: &[TVar],
    declared: &[u32],
    budget: u32,
) -> Option<u32>
    requires { budget ≤ largest_frame }
    ensures { MatchOption result
        (budget < assignment_size (view_defs extents.now) (types_in (map view_var variables.now)) declared.now)
        (λ rest. rest + assignment_size (view_defs extents.now) (types_in (map view_var variables.now)) declared.now ≡ budget) }
{
    match declared.first() {
        Some(variable) => variable_leaves(extents, variables, *variable, budget),
        None => node_leaves(extents, &Ty::Int, budget),
    }
}

// Whether a declaration fits.
fn declared_fits(
    extents: &Extents<'_>,
    variables: &[TVar],
    declared: &[u32],
    value: &Option<Box<TExpr>>,
    budget: u32,
) -> bool
    requires { budget ≤ largest_frame }
    ensures { IsTrue result ↔ (declared_size (view_defs extents.now) (types_in (map view_var variables.now)) declared.now
        (view_boxed value.now) ≤ budget) }
{
    match assignment_leaves(extents, variables, declared, budget) {
        None => false,
        Some(rest) => match variables_leave(extents, variables, declared, rest) {
            None => false,
            Some(rest) => optional_fits(extents, value, rest),
        },
    }
}

// Whether each statement in a statement fits in so many bytes.
#[cycle(frames)]
fn stmt_fits(extents: &Extents<'_>, variables: &[TVar], s: &TStmt, budget: u32) -> bool
    requires { budget ≤ largest_frame }
    ensures { IsTrue result ↔ (stmt_size (view_defs extents.now) (types_in (map view_var variables.now)) (view_stmt s.now) ≤ budget) }
{
    match s {
        TStmt::Block(body) => stmts_fit(extents, variables, body, budget),
        TStmt::Declare {
            variables: declared,
            value,
        } => declared_fits(extents, variables, declared, value, budget),
        TStmt::Eval(e) => expr_fits(extents, e, budget),
        TStmt::If {
            condition,
            then,
            other,
        } => {
            expr_fits(extents, condition, budget)
                && stmts_fit(extents, variables, then, budget)
                && stmts_fit(extents, variables, other, budget)
        }
        TStmt::While { condition, body } => {
            optional_fits(extents, condition, budget) && stmts_fit(extents, variables, body, budget)
        }
        TStmt::Do { body, condition } => {
            optional_fits(extents, condition, budget) && stmts_fit(extents, variables, body, budget)
        }
        TStmt::For {
            first,
            condition,
            next,
            body,
        } => {
            optional_fits(extents, first, budget)
                && optional_fits(extents, condition, budget)
                && optional_fits(extents, next, budget)
                && stmts_fit(extents, variables, body, budget)
        }
        TStmt::Return(value) => optional_fits(extents, value, budget),
        _ => true,
    }
}

// Whether each of several does.
#[cycle(frames)]
fn stmts_fit(extents: &Extents<'_>, variables: &[TVar], body: &[TStmt], budget: u32) -> bool
    requires { budget ≤ largest_frame }
    ensures { IsTrue result
        ↔ (stmts_size (view_defs extents.now) (types_in (map view_var variables.now)) (view_stmts body.now) ≤ budget) }
{
    for s in body {
        if !stmt_fits(extents, variables, s, budget) {
            return false;
        }
    }
    true
}

// Where variables end that are laid one behind the other, if that isn't too far.
fn variables_end(extents: &Extents<'_>, variables: &[TVar]) -> Option<u32>
    ensures { MatchOption result
        (largest_frame < laid_size (view_defs extents.now) (types_in (map view_var variables.now)))
        (λ end. (end ≤ largest_frame) × (end ≡ laid_size (view_defs extents.now) (types_in (map view_var variables.now)))) }
{
    let mut end: u32 = 0;
    for variable in variables {
        let size = extents.size(&variable.ty)?;
        end = end.next_multiple_of(extents.align(&variable.ty)) + size;
        if LARGEST_FRAME < end {
            return None;
        }
    }
    Some(end)
}

/// Whether a function's frame has no more bytes than a frame may have.
pub fn frame_fits(extents: &Extents<'_>, f: &TFn) -> bool
    ensures { IsTrue result ↔ (frame_size (view_defs extents.now) (view_function f.now) ≤ largest_frame) }
{
    match variables_end(extents, &f.variables) {
        None => false,
        Some(end) => {
            end + FRAME_HEAD <= LARGEST_FRAME
                && stmts_fit(
                    extents,
                    &f.variables,
                    &f.body,
                    LARGEST_FRAME - FRAME_HEAD - end,
                )
        }
    }
}

/// Whether the variables of a module have no more.
pub fn globals_fit(extents: &Extents<'_>, variables: &[TVar]) -> bool
    ensures { IsTrue result
        ↔ (laid_size (view_defs extents.now) (types_in (map view_var variables.now)) ≤ largest_frame) }
{
    variables_end(extents, variables).is_some()
}

/// Whether that is so of all functions of a module and of its variables, where its adts are those that are asked of.
pub fn frames_fit(extents: &Extents<'_>, m: &TypedModule) -> bool
    requires { extents.now ≡ m.now.adts.adts }
    ensures fits { IsTrue result ↔ (FrameTooLarge (view_module m.now) → ⊥) }
    ensures too_large { IsFalse result → FrameTooLarge (view_module m.now) }
{
    for f in &m.functions {
        if !frame_fits(extents, f) {
            return false;
        }
    }
    globals_fit(extents, &m.globals)
}

/// What values of a module's types take, where its frames and its variables fit.
///
/// # Errors
/// Want of memory. `FrameTooLarge` exactly where one of them is too large.
pub fn module_extents(alloc: Global, m: &TypedModule) -> Result<Extents<'_>, SizeFault>
    ensures extents { IfOk result (λ extents. extents ≡ m.now.adts.adts) }
    ensures fits { OnOk result (FrameTooLarge (view_module m.now) → ⊥) }
    ensures too_large { IfErr result (λ e. e ≡ fault.FrameTooLarge → FrameTooLarge (view_module m.now)) }
{
    let extents = Extents::new(alloc, m.adts.defs())?;
    if frames_fit(&extents, m) {
        Ok(extents)
    } else {
        Err(SizeFault::FrameTooLarge)
    }
}
