//! Arrays.

ghost use Rattle.std.specs.Prelude.{◌≡◌, ◌≤◌, ◌<◌, ◌+◌, IfOk, map};
ghost use Rattle.limbo_tree.specs.Exprs.{nesting, part_nesting, init_nesting, inits_nesting};
ghost use Rattle.limbo_tree.specs.View.{view_expr, view_init, inits_of};
ghost use Rattle.limbo_reading.specs.Reading.{kinds, Gives};
ghost use Rattle.limbo_tree.specs.View.{view_part};
ghost use Rattle.limbo_expr_parser.specs.Exprs.{readers};
ghost use Rattle.limbo_expr_parser.specs.Exprs as reading;

use crate::expr::{chain_at, expr_in};
use crate::lists::part_before;
use inf_text::Span;
use limbo_expr_parts::{after_comma_inside, after_rest, built, comma_and_brace, sized_at};
use limbo_lexer::{Key, Mark, Token};
use limbo_reading::{ReadError, after_mark, expect_key};
use limbo_tree::{Expr, Init};
use std::alloc::Global;

/// What stands behind `array`.
#[tactic(auto, using(limbo_tree::proofs::Exprs::the_views), unfolding(crate::specs::Exprs::array_at))]
#[cycle(exprs)]
pub fn array_at(
    alloc: Global,
    inner: u32,
    span: Span,
    tokens: &[Token],
) -> Result<(Box<Expr>, u32, &[Token]), ReadError>
    requires { inner < 999 }
    ensures same { Gives (λ x. (view_expr x.0.value, kinds x.2.now)) result (reading.array_at (readers inner) inner (kinds tokens.now)) }
    ensures size { IfOk result (λ x. x.1 ≡ nesting (view_expr x.0.value)) }
    ensures within { IfOk result (λ x. x.1 ≤ inner + 1) }
{
    let Some(behind) = after_mark(Mark::OpenBracket, tokens) else {
        let behind = expect_key(Key::Of, tokens)?;
        let behind = expect_key(Key::Byte, behind)?;
        let (operand, size, rest) = chain_at(alloc, inner, 0, behind)?;
        return built(alloc, Expr::Bytes { operand, span }, 1 + size, rest);
    };
    let (len, size, rest) = part_before(alloc, inner, Mark::CloseBracket, behind)?;
    let behind = expect_key(Key::Of, rest)?;
    if let Some(items) = after_mark(Mark::OpenBrace, behind) {
        return filled_at(alloc, inner, len, size, span, items);
    }
    sized_at(alloc, inner, len, size, span, behind)
}

// The elements of an array, behind their `{`.
#[tactic(auto, using(limbo_tree::proofs::Exprs::the_views), unfolding(crate::specs::Exprs::filled_at))]
#[cycle(exprs)]
fn filled_at(
    alloc: Global,
    inner: u32,
    len: Option<Box<Expr>>,
    size: u32,
    span: Span,
    tokens: &[Token],
) -> Result<(Box<Expr>, u32, &[Token]), ReadError>
    requires small { inner < 999 }
    requires sized { size ≡ part_nesting (view_part len) }
    requires fits { size ≤ inner }
    ensures same { Gives (λ x. (view_expr x.0.value, kinds x.2.now)) result (reading.filled_at (readers inner) (view_part len) (kinds tokens.now)) }
    ensures size { IfOk result (λ x. x.1 ≡ nesting (view_expr x.0.value)) }
    ensures within { IfOk result (λ x. x.1 ≤ inner + 1) }
{
    let (items, items_size, rest) = inits_at(alloc, inner, tokens)?;
    let (comma, rest) = comma_and_brace(rest)?;
    let filled = Expr::Filled {
        len,
        items,
        comma,
        span,
    };
    built(alloc, filled, 1 + size.max(items_size), rest)
}

// init `{"," init}`
#[cycle(exprs)]
fn inits_at(
    alloc: Global,
    budget: u32,
    tokens: &[Token],
) -> Result<(Vec<Init>, u32, &[Token]), ReadError>
    requires { budget < 1000 }
    ensures same { Gives (λ x. (map view_init x.0.items, kinds x.2.now)) result (reading.inits_at (readers budget) (kinds tokens.now)) }
    ensures size { IfOk result (λ x. x.1 ≡ inits_nesting (inits_of (map view_init x.0.items))) }
    ensures within { IfOk result (λ x. x.1 ≤ budget) }
{
    let (first, mut size, mut rest) = init_at(alloc, budget, tokens)?;
    let mut items = Vec::new(alloc);
    items.push(first)?;
    'all: while let Some(behind) = after_comma_inside(rest) {
        let (item, item_size, after) = init_at(alloc, budget, behind)?;
        items.push(item)?;
        size = size.max(item_size);
        rest = after;
    }
    Ok((items, size, rest))
}

// An item between the braces of an array.
#[tactic(auto, using(limbo_tree::proofs::Exprs::the_init_views), unfolding(crate::specs::Exprs::init_at))]
#[cycle(exprs)]
fn init_at(alloc: Global, budget: u32, tokens: &[Token]) -> Result<(Init, u32, &[Token]), ReadError>
    requires { budget < 1000 }
    ensures same { Gives (λ x. (view_init x.0, kinds x.2.now)) result (reading.init_at (readers budget) (kinds tokens.now)) }
    ensures size { IfOk result (λ x. x.1 ≡ init_nesting (view_init x.0)) }
    ensures within { IfOk result (λ x. x.1 ≤ budget) }
{
    if let Some(behind) = after_rest(tokens) {
        let (value, size, rest) = expr_in(alloc, budget, behind)?;
        return Ok((Init::Rest { value }, size, rest));
    }
    let (index, index_size, rest) = expr_in(alloc, budget, tokens)?;
    let Some(behind) = after_mark(Mark::FatArrow, rest) else {
        return Ok((Init::Next { value: index }, index_size, rest));
    };
    let (value, value_size, rest) = expr_in(alloc, budget, behind)?;
    Ok((Init::At { index, value }, index_size.max(value_size), rest))
}
