//! Expressions, read by recursive descent, and their operators by climbing.

ghost use Rattle.std.specs.Prelude.{◌≡◌, ◌≤◌, ◌<◌, ◌+◌, IfOk, length};
ghost use Rattle.limbo_tree.specs.Exprs.{nesting};
ghost use Rattle.limbo_tree.specs.View.{view_expr};
ghost use Rattle.limbo_reading.specs.Reading.{kinds, Gives};
ghost use Rattle.limbo_expr_parser.specs.Exprs.{readers};
ghost use Rattle.limbo_expr_parser.specs.Exprs as reading;

use crate::arrays::array_at;
use crate::lists::listed_at;
use crate::postfix::postfixed_at;
use inf_text::Span;
use limbo_expr_parts::{
    after_load, assign_after, boxed, built, channel_at, op_within, right_level, unary_at_front,
};
use limbo_lexer::{Key, Token};
use limbo_reading::{ReadError, after_key, expect_name, place, too_deep};
use limbo_tree::Expr;
use std::alloc::Global;

/// An expression of nesting up to the budget, its nesting, and what stands behind it.
///
/// # Errors
/// `Syntax` or `TooDeep` at the first token that no expression goes on with; `NoMemory`.
#[tactic(auto, using(crate::proofs::ExprSteps::expr_shorter))]
pub fn expr_at(
    alloc: Global,
    budget: u32,
    tokens: &[Token],
) -> Result<(Box<Expr>, u32, &[Token]), ReadError>
    requires { budget < 1000 }
    ensures same { Gives (λ x. (view_expr x.0.value, kinds x.2.now)) result ((readers budget).expr (kinds tokens.now)) }
    ensures size { IfOk result (λ x. x.1 ≡ nesting (view_expr x.0.value)) }
    ensures within { IfOk result (λ x. x.1 ≤ budget) }
    ensures shorter { IfOk result (λ x. length (kinds x.2.now) < length (kinds tokens.now)) }
{
    expr_in(alloc, budget, tokens)
}

/// A unary of nesting up to the budget, its nesting, and what stands behind it.
///
/// # Errors
/// `Syntax` or `TooDeep` at the first token that no unary goes on with; `NoMemory`.
#[tactic(auto, using(crate::proofs::ExprSteps::chain_shorter))]
pub fn unary_at(
    alloc: Global,
    budget: u32,
    tokens: &[Token],
) -> Result<(Box<Expr>, u32, &[Token]), ReadError>
    requires { budget < 1000 }
    ensures same { Gives (λ x. (view_expr x.0.value, kinds x.2.now)) result ((readers budget).chain 0 (kinds tokens.now)) }
    ensures size { IfOk result (λ x. x.1 ≡ nesting (view_expr x.0.value)) }
    ensures within { IfOk result (λ x. x.1 ≤ budget) }
    ensures shorter { IfOk result (λ x. length (kinds x.2.now) < length (kinds tokens.now)) }
{
    chain_at(alloc, budget, 0, tokens)
}

/// An expression of nesting up to the budget, its nesting, and what stands behind it.
#[tactic(auto, using(limbo_tree::proofs::Exprs::the_views, crate::proofs::ExprSteps::the_budget), unfolding(crate::specs::Exprs::expr, crate::specs::Exprs::assigned))]
#[cycle(exprs)]
pub fn expr_in(
    alloc: Global,
    budget: u32,
    tokens: &[Token],
) -> Result<(Box<Expr>, u32, &[Token]), ReadError>
    requires { budget < 1000 }
    ensures same { Gives (λ x. (view_expr x.0.value, kinds x.2.now)) result ((readers budget).expr (kinds tokens.now)) }
    ensures size { IfOk result (λ x. x.1 ≡ nesting (view_expr x.0.value)) }
    ensures within { IfOk result (λ x. x.1 ≤ budget) }
{
    if budget == 0 {
        return Err(too_deep(tokens));
    }
    let inner = budget - 1;
    let (left, size, rest) = chain_above(alloc, inner, 12, tokens)?;
    let Some((op, behind)) = assign_after(&*left, rest) else {
        return Ok((left, size, rest));
    };
    if size > inner {
        return Err(too_deep(rest));
    }
    let (right, right_size, rest) = expr_in(alloc, inner, behind)?;
    let span = place(tokens);
    let tree = Expr::Assign {
        op,
        left,
        right,
        span,
    };
    built(alloc, tree, 1 + size.max(right_size), rest)
}

/// A tree of a level, of nesting up to the budget.
#[tactic(auto, using(crate::proofs::ExprSteps::the_budget))]
#[cycle(exprs)]
pub fn chain_at(
    alloc: Global,
    budget: u32,
    level: u32,
    tokens: &[Token],
) -> Result<(Box<Expr>, u32, &[Token]), ReadError>
    requires { budget < 1000 }
    ensures same { Gives (λ x. (view_expr x.0.value, kinds x.2.now)) result ((readers budget).chain level (kinds tokens.now)) }
    ensures size { IfOk result (λ x. x.1 ≡ nesting (view_expr x.0.value)) }
    ensures within { IfOk result (λ x. x.1 ≤ budget) }
{
    if budget == 0 {
        return Err(too_deep(tokens));
    }
    chain_above(alloc, budget - 1, level, tokens)
}

// The same, whose parts nest up to the budget.
#[tactic(auto, using(limbo_tree::proofs::Exprs::the_views))]
#[cycle(exprs)]
fn chain_above(
    alloc: Global,
    inner: u32,
    level: u32,
    tokens: &[Token],
) -> Result<(Box<Expr>, u32, &[Token]), ReadError>
    requires { inner < 999 }
    ensures same { Gives (λ x. (view_expr x.0.value, kinds x.2.now)) result (reading.chain (readers inner) inner level (kinds tokens.now)) }
    ensures size { IfOk result (λ x. x.1 ≡ nesting (view_expr x.0.value)) }
    ensures within { IfOk result (λ x. x.1 ≤ inner + 1) }
{
    let span = place(tokens);
    if let Some(behind) = after_load(level, tokens) {
        return load_at(alloc, inner, span, behind);
    }
    let (mut left, mut size, mut rest) = unary_above(alloc, inner, tokens)?;
    'ops: while let Some((op, behind)) = op_within(level, rest) {
        if size > inner {
            return Err(too_deep(rest));
        }
        let (right, right_size, after) = chain_at(alloc, inner, right_level(op), behind)?;
        let whole = boxed(
            alloc,
            Expr::Binary {
                op,
                left,
                right,
                span,
            },
        )?;
        left = whole;
        size = 1 + size.max(right_size);
        rest = after;
    }
    Ok((left, size, rest))
}

// A load, behind its keyword.
#[tactic(auto, using(limbo_tree::proofs::Exprs::the_views), unfolding(crate::specs::Exprs::load_at))]
#[cycle(exprs)]
fn load_at(
    alloc: Global,
    inner: u32,
    span: Span,
    tokens: &[Token],
) -> Result<(Box<Expr>, u32, &[Token]), ReadError>
    requires { inner < 999 }
    ensures same { Gives (λ x. (view_expr x.0.value, kinds x.2.now)) result (reading.load_at (readers inner) (kinds tokens.now)) }
    ensures size { IfOk result (λ x. x.1 ≡ nesting (view_expr x.0.value)) }
    ensures within { IfOk result (λ x. x.1 ≤ inner + 1) }
{
    let (module, behind) = expect_name(tokens)?;
    let (path, size, rest) = chain_at(alloc, inner, 12, behind)?;
    built(alloc, Expr::Load { module, path, span }, 1 + size, rest)
}

// A unary, whose parts nest up to the budget.
#[tactic(auto, using(limbo_tree::proofs::Exprs::the_views), unfolding(crate::specs::Exprs::unary))]
#[cycle(exprs)]
fn unary_above(
    alloc: Global,
    inner: u32,
    tokens: &[Token],
) -> Result<(Box<Expr>, u32, &[Token]), ReadError>
    requires { inner < 999 }
    ensures same { Gives (λ x. (view_expr x.0.value, kinds x.2.now)) result (reading.unary (readers inner) inner (kinds tokens.now)) }
    ensures size { IfOk result (λ x. x.1 ≡ nesting (view_expr x.0.value)) }
    ensures within { IfOk result (λ x. x.1 ≤ inner + 1) }
{
    let span = place(tokens);
    if let Some((op, behind)) = unary_at_front(tokens) {
        let (operand, size, rest) = chain_at(alloc, inner, 0, behind)?;
        return built(alloc, Expr::Unary { op, operand, span }, 1 + size, rest);
    }
    if let Some(behind) = after_key(Key::Array, tokens) {
        return array_at(alloc, inner, span, behind);
    }
    if let Some(behind) = after_key(Key::List, tokens) {
        return listed_at(alloc, inner, span, behind);
    }
    if let Some(behind) = after_key(Key::Chan, tokens) {
        return channel_at(alloc, inner, span, behind);
    }
    postfixed_at(alloc, inner, tokens)
}
