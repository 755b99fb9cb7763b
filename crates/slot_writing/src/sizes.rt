//! What frames and the variables of a module take.

ghost use Rattle.std.specs.Prelude.{◌≡◌, ◌+◌, ◌<◌, ◌≤◌, ◌↔◌, IsTrue, MatchOption, map};
ghost use Rattle.limbo_types.specs.View.{view_ty};
ghost use Rattle.limbo_typed.specs.View.{view_expr, view_node, view_exprs, view_boxed, view_stmt, view_stmts, view_var, view_function};
ghost use Rattle.slot_code.specs.Layout as layout;
ghost use Rattle.typed_lower.specs.Sizes as sizes;
ghost use Rattle.typed_lower.specs.Sizes.{largest_frame};
ghost use Rattle.typed_lower.specs.Statements as statements;

use crate::kinds::number_kind;
use limbo_typed::{TExpr, TFn, TNode, TStmt, TVar};
use limbo_types::Ty;
use limbo_values::Kind;

// A frame has at most so many bytes, and so many of them are the same in each.
const LARGEST_FRAME: u32 = 65_536;

const FRAME_HEAD: u32 = 40;

// What a place takes that is written.
const WRITTEN: u32 = 24;

// What the module and the format of a print take.
const PRINT: u32 = 48;

// What a node of this type takes.
#[tactic(auto, using(limbo_types::proofs::View::the_types, crate::proofs::Others::has_value))]
fn node_size(ty: &Ty) -> u32
    ensures { result ≡ sizes.node_size (view_ty ty.now) }
{
    match ty {
        Ty::Nothing => 16,
        _ => 24,
    }
}

// What is left of so many bytes behind an expression, if it fits.
#[cycle(sizes)]
#[tactic(auto, using(limbo_typed::proofs::View::the_exprs))]
fn expr_leaves(e: &TExpr, budget: u32) -> Option<u32>
    ensures { MatchOption result (budget < sizes.expr_size (view_expr e.now)) (λ rest. rest + sizes.expr_size (view_expr e.now) ≡ budget) }
{
    let rest = budget.checked_sub(node_size(&e.ty))?;
    node_leaves(&e.node, rest)
}

// What is left behind what a node is made of.
#[cycle(sizes)]
#[tactic(auto, using(limbo_typed::proofs::View::the_exprs))]
fn node_leaves(node: &TNode, budget: u32) -> Option<u32>
    ensures { MatchOption result (budget < sizes.inner_size (view_node node.now)) (λ rest. rest + sizes.inner_size (view_node node.now)
        ≡ budget) }
{
    match node {
        TNode::Apply { args, .. } => exprs_leave(args, budget),
        TNode::Lazy { left, right, .. } => {
            let rest = expr_leaves(left, budget)?;
            expr_leaves(right, rest)
        }
        TNode::Assign { value, .. } => {
            let rest = expr_leaves(value, budget)?;
            rest.checked_sub(WRITTEN)
        }
        TNode::Update { value, .. } => {
            let rest = expr_leaves(value, budget)?;
            rest.checked_sub(WRITTEN)
        }
        TNode::Step { .. } => budget.checked_sub(WRITTEN),
        TNode::Call { args, .. } => exprs_leave(args, budget),
        TNode::Print { args, .. } => {
            let rest = exprs_leave(args, budget)?;
            rest.checked_sub(PRINT)
        }
        TNode::Load { path, .. } => expr_leaves(path, budget),
        _ => Some(budget),
    }
}

// What is left behind expressions, if they fit.
#[cycle(sizes)]
fn exprs_leave(es: &[TExpr], budget: u32) -> Option<u32>
    ensures { MatchOption result (budget < sizes.exprs_size (view_exprs es.now)) (λ rest. rest + sizes.exprs_size (view_exprs es.now)
        ≡ budget) }
{
    let mut rest = budget;
    for e in es {
        rest = expr_leaves(e, rest)?;
    }
    Some(rest)
}

fn expr_fits(e: &TExpr, budget: u32) -> bool
    ensures { IsTrue result ↔ (sizes.expr_size (view_expr e.now) ≤ budget) }
{
    expr_leaves(e, budget).is_some()
}

#[tactic(auto, using(limbo_typed::proofs::View::the_stmts))]
fn optional_fits(e: &Option<Box<TExpr>>, budget: u32) -> bool
    ensures { IsTrue result ↔ (sizes.optional_size (view_boxed e.now) ≤ budget) }
{
    match e {
        None => true,
        Some(e) => expr_fits(e, budget),
    }
}

// Whether a declaration fits, which is an assignment to each of its variables.
fn declared_fits(variables: &[u32], value: &Option<Box<TExpr>>, budget: u32) -> bool
    ensures { IsTrue result ↔ (sizes.declared_size variables.now (view_boxed value.now) ≤ budget) }
{
    let most = (budget / WRITTEN) as usize;
    if most <= variables.len() {
        return false;
    }
    optional_fits(value, budget - WRITTEN * (variables.len() as u32 + 1))
}

// Whether each statement in a statement fits in so many bytes.
#[cycle(frames)]
fn stmt_fits(s: &TStmt, budget: u32) -> bool
    ensures { IsTrue result ↔ (sizes.stmt_size (view_stmt s.now) ≤ budget) }
{
    match s {
        TStmt::Block(body) => stmts_fit(body, budget),
        TStmt::Declare { variables, value } => declared_fits(variables, value, budget),
        TStmt::Eval(e) => expr_fits(e, budget),
        TStmt::If {
            condition,
            then,
            other,
        } => expr_fits(condition, budget) && stmts_fit(then, budget) && stmts_fit(other, budget),
        TStmt::While { condition, body } => {
            optional_fits(condition, budget) && stmts_fit(body, budget)
        }
        TStmt::Do { body, condition } => {
            optional_fits(condition, budget) && stmts_fit(body, budget)
        }
        TStmt::For {
            first,
            condition,
            next,
            body,
        } => {
            optional_fits(first, budget)
                && optional_fits(condition, budget)
                && optional_fits(next, budget)
                && stmts_fit(body, budget)
        }
        TStmt::Return(value) => optional_fits(value, budget),
        _ => true,
    }
}

// Whether each of several does.
#[cycle(frames)]
fn stmts_fit(body: &[TStmt], budget: u32) -> bool
    ensures { IsTrue result ↔ (sizes.stmts_size (view_stmts body.now) ≤ budget) }
{
    for s in body {
        if !stmt_fits(s, budget) {
            return false;
        }
    }
    true
}

// How many bytes a variable of a kind takes.
fn size_of(kind: Option<Kind>) -> u32
    ensures { result ≡ layout.size_of kind }
{
    match kind {
        None => 4,
        Some(Kind::Byte) => 1,
        Some(Kind::Int) => 4,
        Some(Kind::Big) => 8,
    }
}

// Where variables end that are laid one behind the other, if that isn't too far.
#[tactic(auto, using(crate::proofs::Laid::end_grows))]
fn variables_end(variables: &[TVar]) -> Option<u32>
    ensures { MatchOption result
        (largest_frame < layout.end_of 0 (map (λ v. statements.number_kind v.ty) (map view_var variables.now)))
        (λ end. (end ≤ largest_frame) × (end ≡ layout.end_of 0 (map (λ v. statements.number_kind v.ty) (map view_var variables.now)))) }
{
    let mut end: u32 = 0;
    for variable in variables {
        let size = size_of(number_kind(&variable.ty));
        end = end.next_multiple_of(size) + size;
        if LARGEST_FRAME < end {
            return None;
        }
    }
    Some(end)
}

/// Whether a function's frame has no more bytes than a frame may have.
pub(crate) fn frame_fits(f: &TFn) -> bool
    ensures { IsTrue result ↔ (sizes.frame_size (view_function f.now) ≤ largest_frame) }
{
    match variables_end(&f.variables) {
        None => false,
        Some(end) => {
            end + FRAME_HEAD <= LARGEST_FRAME
                && stmts_fit(&f.body, LARGEST_FRAME - FRAME_HEAD - end)
        }
    }
}

/// Whether the variables of a module have no more.
pub(crate) fn globals_fit(variables: &[TVar]) -> bool
    ensures { IsTrue result
        ↔ (layout.end_of 0 (map (λ v. statements.number_kind v.ty) (map view_var variables.now)) ≤ largest_frame) }
{
    variables_end(variables).is_some()
}
