//! Lists of expressions, and parts that may be absent.

ghost use Rattle.std.specs.Prelude.{◌≡◌, ◌≤◌, ◌<◌, ◌+◌, IfOk, map};
ghost use Rattle.limbo_tree.specs.Exprs.{nesting, exprs_nesting, part_nesting};
ghost use Rattle.limbo_tree.specs.View.{view_expr, exprs_of};
ghost use Rattle.limbo_reading.specs.Reading.{kinds, Gives};
ghost use Rattle.limbo_tree.specs.View.{view_part};
ghost use Rattle.limbo_expr_parser.specs.Exprs.{readers};
ghost use Rattle.limbo_expr_parser.specs.Exprs as reading;

use crate::expr::expr_in;
use inf_text::Span;
use limbo_expr_parts::{built, push_expr};
use limbo_lexer::{Key, Mark, Token};
use limbo_reading::{ReadError, after_mark, expect_key, expect_mark};
use limbo_tree::Expr;
use std::alloc::Global;

/// `expr {"," expr}`: the expressions, how deep they nest, and what stands behind them.
#[cycle(exprs)]
pub fn list_at(
    alloc: Global,
    budget: u32,
    tokens: &[Token],
) -> Result<(Vec<Expr>, u32, &[Token]), ReadError>
    requires { budget < 1000 }
    ensures same { Gives (λ x. (map view_expr x.0.items, kinds x.2.now)) result (reading.list_at (readers budget) (kinds tokens.now)) }
    ensures size { IfOk result (λ x. x.1 ≡ exprs_nesting (exprs_of (map view_expr x.0.items))) }
    ensures within { IfOk result (λ x. x.1 ≤ budget) }
{
    let (first, mut size, mut rest) = expr_in(alloc, budget, tokens)?;
    let mut items = Vec::new(alloc);
    push_expr(&mut items, first)?;
    'all: while let Some(behind) = after_mark(Mark::Comma, rest) {
        let (item, item_size, after) = expr_in(alloc, budget, behind)?;
        push_expr(&mut items, item)?;
        size = size.max(item_size);
        rest = after;
    }
    Ok((items, size, rest))
}

/// `[expr {"," expr}]` before a sign, and the sign.
#[tactic(auto, unfolding(crate::specs::Exprs::list_before))]
#[cycle(exprs)]
pub fn list_before(
    alloc: Global,
    budget: u32,
    closing: Mark,
    tokens: &[Token],
) -> Result<(Vec<Expr>, u32, &[Token]), ReadError>
    requires { budget < 1000 }
    ensures same { Gives (λ x. (exprs_of (map view_expr x.0.items), kinds x.2.now)) result (reading.list_before (readers budget) closing (kinds tokens.now)) }
    ensures size { IfOk result (λ x. x.1 ≡ exprs_nesting (exprs_of (map view_expr x.0.items))) }
    ensures within { IfOk result (λ x. x.1 ≤ budget) }
{
    if let Some(rest) = after_mark(closing, tokens) {
        return Ok((Vec::new(alloc), 0, rest));
    }
    let (items, size, rest) = list_at(alloc, budget, tokens)?;
    let rest = expect_mark(closing, rest)?;
    Ok((items, size, rest))
}

/// `[expr]` before a sign, and the sign.
#[tactic(auto, unfolding(crate::specs::Exprs::part_before))]
#[cycle(exprs)]
pub fn part_before(
    alloc: Global,
    budget: u32,
    closing: Mark,
    tokens: &[Token],
) -> Result<(Option<Box<Expr>>, u32, &[Token]), ReadError>
    requires { budget < 1000 }
    ensures same { Gives (λ x. (view_part x.0, kinds x.2.now)) result (reading.part_before (readers budget) closing (kinds tokens.now)) }
    ensures size { IfOk result (λ x. x.1 ≡ part_nesting (view_part x.0)) }
    ensures within { IfOk result (λ x. x.1 ≤ budget) }
{
    if let Some(rest) = after_mark(closing, tokens) {
        return Ok((None, 0, rest));
    }
    let (part, size, rest) = expr_in(alloc, budget, tokens)?;
    let rest = expect_mark(closing, rest)?;
    Ok((Some(part), size, rest))
}

/// What stands behind `list`.
#[tactic(auto, using(limbo_tree::proofs::Exprs::the_views), unfolding(crate::specs::Exprs::listed_at))]
#[cycle(exprs)]
pub fn listed_at(
    alloc: Global,
    inner: u32,
    span: Span,
    tokens: &[Token],
) -> Result<(Box<Expr>, u32, &[Token]), ReadError>
    requires { inner < 999 }
    ensures same { Gives (λ x. (view_expr x.0.value, kinds x.2.now)) result (reading.listed_at (readers inner) (kinds tokens.now)) }
    ensures size { IfOk result (λ x. x.1 ≡ nesting (view_expr x.0.value)) }
    ensures within { IfOk result (λ x. x.1 ≤ inner + 1) }
{
    let behind = expect_key(Key::Of, tokens)?;
    let behind = expect_mark(Mark::OpenBrace, behind)?;
    let (items, size, rest) = list_before(alloc, inner, Mark::CloseBrace, behind)?;
    built(alloc, Expr::Listed { items, span }, 1 + size, rest)
}
