//! Primaries, and what stands behind them.

ghost use Rattle.std.specs.Prelude.{◌≡◌, ◌≤◌, ◌<◌, ◌+◌, IfOk, max};
ghost use Rattle.limbo_tree.specs.Exprs.{nesting, part_nesting};
ghost use Rattle.limbo_tree.specs.View.{view_expr, view_part};
ghost use Rattle.limbo_reading.specs.Reading.{kinds, Gives};
ghost use Rattle.limbo_expr_parser.specs.Exprs.{readers};
ghost use Rattle.limbo_expr_parser.specs.Exprs as reading;

use crate::expr::expr_in;
use crate::lists::{list_at, list_before, part_before};
use inf_text::Span;
use limbo_expr_parts::{built, is_ended, leaf_at, part_behind};
use limbo_lexer::{Mark, Token};
use limbo_reading::{ReadError, after_mark, expect_mark, place, too_deep};
use limbo_tree::Expr;
use std::alloc::Global;

/// A primary and all that stands behind it, whose parts nest up to the budget.
#[cycle(exprs)]
pub fn postfixed_at(
    alloc: Global,
    inner: u32,
    tokens: &[Token],
) -> Result<(Box<Expr>, u32, &[Token]), ReadError>
    requires { inner < 999 }
    ensures same { Gives (λ x. (view_expr x.0.value, kinds x.2.now)) result (reading.postfixed (readers inner) inner (kinds tokens.now)) }
    ensures size { IfOk result (λ x. x.1 ≡ nesting (view_expr x.0.value)) }
    ensures within { IfOk result (λ x. x.1 ≤ inner + 1) }
{
    let span = place(tokens);
    let (mut tree, mut size, mut rest) = primary_at(alloc, inner, tokens)?;
    'postfixes: while !is_ended(rest) {
        if size > inner {
            return Err(too_deep(rest));
        }
        let (whole, whole_size, after) = one_behind(alloc, inner, tree, size, span, rest)?;
        tree = whole;
        size = whole_size;
        rest = after;
    }
    Ok((tree, size, rest))
}

// A primary.
#[tactic(auto, using(limbo_tree::proofs::Exprs::the_views), unfolding(crate::specs::Exprs::primary))]
#[cycle(exprs)]
fn primary_at(
    alloc: Global,
    inner: u32,
    tokens: &[Token],
) -> Result<(Box<Expr>, u32, &[Token]), ReadError>
    requires { inner < 999 }
    ensures same { Gives (λ x. (view_expr x.0.value, kinds x.2.now)) result (reading.primary (readers inner) (kinds tokens.now)) }
    ensures size { IfOk result (λ x. x.1 ≡ nesting (view_expr x.0.value)) }
    ensures within { IfOk result (λ x. x.1 ≤ inner + 1) }
{
    let Some(behind) = after_mark(Mark::OpenParen, tokens) else {
        return leaf_at(alloc, tokens);
    };
    let (items, size, rest) = list_at(alloc, inner, behind)?;
    let rest = expect_mark(Mark::CloseParen, rest)?;
    let span = place(tokens);
    built(alloc, Expr::Group { items, span }, 1 + size, rest)
}

// One of those that may stand behind the base.
#[tactic(auto, using(limbo_tree::proofs::Exprs::the_views), unfolding(crate::specs::Exprs::one_behind))]
#[cycle(exprs)]
fn one_behind(
    alloc: Global,
    inner: u32,
    base: Box<Expr>,
    size: u32,
    span: Span,
    tokens: &[Token],
) -> Result<(Box<Expr>, u32, &[Token]), ReadError>
    requires small { inner < 999 }
    requires sized { size ≡ nesting (view_expr base.value) }
    requires fits { size ≤ inner }
    ensures same { Gives (λ x. (view_expr x.0.value, kinds x.2.now)) result (reading.one_behind (readers inner) (view_expr base.value) (kinds tokens.now)) }
    ensures size { IfOk result (λ x. x.1 ≡ nesting (view_expr x.0.value)) }
    ensures within { IfOk result (λ x. x.1 ≤ inner + 1) }
{
    if let Some(behind) = after_mark(Mark::OpenParen, tokens) {
        let (args, args_size, rest) = list_before(alloc, inner, Mark::CloseParen, behind)?;
        let call = Expr::Call {
            function: base,
            args,
            span,
        };
        return built(alloc, call, 1 + size.max(args_size), rest);
    }
    if let Some(behind) = after_mark(Mark::OpenBracket, tokens) {
        return index_at(alloc, inner, base, size, span, behind);
    }
    part_behind(alloc, base, size, span, tokens)
}

// What stands behind the `[` of an index or a slice.
#[tactic(auto, using(limbo_tree::proofs::Exprs::the_views), unfolding(crate::specs::Exprs::index_at))]
#[cycle(exprs)]
fn index_at(
    alloc: Global,
    inner: u32,
    base: Box<Expr>,
    size: u32,
    span: Span,
    tokens: &[Token],
) -> Result<(Box<Expr>, u32, &[Token]), ReadError>
    requires small { inner < 999 }
    requires sized { size ≡ nesting (view_expr base.value) }
    requires fits { size ≤ inner }
    ensures same { Gives (λ x. (view_expr x.0.value, kinds x.2.now)) result (reading.index_at (readers inner) (view_expr base.value) (kinds tokens.now)) }
    ensures size { IfOk result (λ x. x.1 ≡ nesting (view_expr x.0.value)) }
    ensures within { IfOk result (λ x. x.1 ≤ inner + 1) }
{
    if let Some(behind) = after_mark(Mark::Colon, tokens) {
        return slice_at(alloc, inner, base, None, size, span, behind);
    }
    let (index, index_size, rest) = expr_in(alloc, inner, tokens)?;
    let size = size.max(index_size);
    if let Some(rest) = after_mark(Mark::CloseBracket, rest) {
        return built(alloc, Expr::Index { base, index, span }, 1 + size, rest);
    }
    let behind = expect_mark(Mark::Colon, rest)?;
    slice_at(alloc, inner, base, Some(index), size, span, behind)
}

// The end of a slice, behind its `:`. The size is the nesting of its base and of its start.
#[tactic(auto, using(limbo_tree::proofs::Exprs::the_views))]
#[cycle(exprs)]
fn slice_at(
    alloc: Global,
    inner: u32,
    base: Box<Expr>,
    from: Option<Box<Expr>>,
    size: u32,
    span: Span,
    tokens: &[Token],
) -> Result<(Box<Expr>, u32, &[Token]), ReadError>
    requires small { inner < 999 }
    requires sized { size ≡ max (nesting (view_expr base.value)) (part_nesting (view_part from)) }
    requires fits { size ≤ inner }
    ensures same { Gives (λ x. (view_expr x.0.value, kinds x.2.now)) result (reading.slice_at (readers inner) (view_expr base.value) (view_part from) (kinds tokens.now)) }
    ensures size { IfOk result (λ x. x.1 ≡ nesting (view_expr x.0.value)) }
    ensures within { IfOk result (λ x. x.1 ≤ inner + 1) }
{
    let (to, to_size, rest) = part_before(alloc, inner, Mark::CloseBracket, tokens)?;
    let slice = Expr::Slice {
        base,
        from,
        to,
        span,
    };
    built(alloc, slice, 1 + size.max(to_size), rest)
}
