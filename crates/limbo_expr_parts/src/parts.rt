//! Parts of expressions that hold no expression that is still to be read.

ghost use Rattle.std.specs.Prelude.{◌≡◌, ◌≤◌, ◌<◌, ◌+◌, None, Some, MatchOption, IfSome, IfOk, IfErr, nat_lt};
ghost use Rattle.limbo_reading.specs.declared.fault.ReadError.TheVariants.{NoMemory};
ghost use Rattle.limbo_tree.specs.Exprs.{nesting, part_nesting};
ghost use Rattle.limbo_tree.specs.View.{view_expr, view_part};
ghost use Rattle.limbo_reading.specs.Reading.{kinds, Gives};
ghost use Rattle.limbo_expr_parts.specs.Strength.{strength};
ghost use Rattle.limbo_expr_parts.specs.Parts as reading;

use crate::boxes::built;
use crate::operators::postfix_at_front;
use crate::types::type_at;
use inf_text::Span;
use limbo_lexer::{Key, Kind, Mark, Token};
use limbo_reading::{ReadError, after_mark, expect_key, expect_mark, expect_name, syntax};
use limbo_tree::Expr;
use std::alloc::Global;

/// A number, a string, a name or `nil`.
#[tactic(auto, unfolding(crate::specs::Parts::leaf_at))]
pub fn leaf_at(alloc: Global, tokens: &[Token]) -> Result<(Box<Expr>, u32, &[Token]), ReadError>
    ensures same { Gives (λ x. (view_expr x.0.value, kinds x.2.now)) result (reading.leaf_at (kinds tokens.now)) }
    ensures size { IfOk result (λ x. x.1 ≡ nesting (view_expr x.0.value)) }
    ensures within { IfOk result (λ x. x.1 ≤ 1) }
{
    let [first, rest @ ..] = tokens else {
        return Err(syntax(tokens));
    };
    match leaf_of(&first.kind, first.span)? {
        Some(leaf) => built(alloc, leaf, 1, rest),
        None => Err(syntax(tokens)),
    }
}

// The tree that a token is by itself.
#[tactic(auto, using(limbo_tree::proofs::Exprs::the_views))]
fn leaf_of(kind: &Kind, span: Span) -> Result<Option<Expr>, ReadError>
    ensures same { IfOk result (λ o. MatchOption o (reading.leaf_of kind.now ≡ None) (λ e. reading.leaf_of kind.now ≡ Some (view_expr e))) }
    ensures one { IfOk result (λ o. IfSome o (λ e. nesting (view_expr e) ≡ 1)) }
    ensures memory { IfErr result (λ e. e ≡ NoMemory) }
{
    match kind {
        Kind::Number { value, wide } => Ok(Some(Expr::Number {
            value: *value,
            wide: *wide,
            span,
        })),
        Kind::Chars(text) => Ok(Some(Expr::Chars {
            text: text.clone()?,
            span,
        })),
        Kind::Name(name) => Ok(Some(Expr::Name {
            name: name.clone()?,
            span,
        })),
        Kind::Key(Key::Nil) => Ok(Some(Expr::Nil { span })),
        _ => Ok(None),
    }
}

/// Whether nothing more stands behind a postfix.
pub fn is_ended(tokens: &[Token]) -> bool
    ensures { result ≡ nat_lt 0 (strength (kinds tokens.now)) }
{
    let [first, ..] = tokens else {
        return true;
    };
    match &first.kind {
        Kind::Mark(Mark::OpenParen) => false,
        Kind::Mark(Mark::OpenBracket) => false,
        Kind::Mark(Mark::Dot) => false,
        Kind::Mark(Mark::Arrow) => false,
        Kind::Mark(Mark::Increment) => false,
        Kind::Mark(Mark::Decrement) => false,
        _ => true,
    }
}

/// The name of a part, or a step, behind the base.
#[tactic(auto, using(limbo_tree::proofs::Exprs::the_views), unfolding(crate::specs::Parts::part_behind))]
pub fn part_behind(
    alloc: Global,
    base: Box<Expr>,
    size: u32,
    span: Span,
    tokens: &[Token],
) -> Result<(Box<Expr>, u32, &[Token]), ReadError>
    requires sized { size ≡ nesting (view_expr base.value) }
    requires fits { size < 999 }
    ensures same { Gives (λ x. (view_expr x.0.value, kinds x.2.now)) result (reading.part_behind (view_expr base.value) (kinds tokens.now)) }
    ensures size { IfOk result (λ x. x.1 ≡ nesting (view_expr x.0.value)) }
    ensures within { IfOk result (λ x. x.1 ≤ size + 1) }
{
    if let Some(behind) = after_mark(Mark::Dot, tokens) {
        let (name, rest) = expect_name(behind)?;
        return built(alloc, Expr::Dot { base, name, span }, 1 + size, rest);
    }
    if let Some(behind) = after_mark(Mark::Arrow, tokens) {
        let (name, rest) = expect_name(behind)?;
        return built(alloc, Expr::Arrow { base, name, span }, 1 + size, rest);
    }
    let Some((op, rest)) = postfix_at_front(tokens) else {
        return Err(syntax(tokens));
    };
    built(alloc, Expr::Postfix { op, base, span }, 1 + size, rest)
}

/// The type of an array's elements.
#[tactic(auto, using(limbo_tree::proofs::Exprs::the_views), unfolding(crate::specs::Parts::sized_at))]
pub fn sized_at(
    alloc: Global,
    inner: u32,
    len: Option<Box<Expr>>,
    size: u32,
    span: Span,
    tokens: &[Token],
) -> Result<(Box<Expr>, u32, &[Token]), ReadError>
    requires small { inner < 999 }
    requires sized { size ≡ part_nesting (view_part len) }
    requires fits { size ≤ inner }
    ensures same { Gives (λ x. (view_expr x.0.value, kinds x.2.now)) result (reading.sized_at inner (view_part len) (kinds tokens.now)) }
    ensures size { IfOk result (λ x. x.1 ≡ nesting (view_expr x.0.value)) }
    ensures within { IfOk result (λ x. x.1 ≤ inner + 1) }
{
    let Some(len) = len else {
        return Err(syntax(tokens));
    };
    let (element, element_size, rest) = type_at(alloc, inner, tokens)?;
    let sized = Expr::Sized { len, element, span };
    built(alloc, sized, 1 + size.max(element_size), rest)
}

/// What stands behind `chan`.
#[tactic(auto, using(limbo_tree::proofs::Exprs::the_views), unfolding(crate::specs::Parts::channel_at))]
pub fn channel_at(
    alloc: Global,
    inner: u32,
    span: Span,
    tokens: &[Token],
) -> Result<(Box<Expr>, u32, &[Token]), ReadError>
    requires { inner < 999 }
    ensures same { Gives (λ x. (view_expr x.0.value, kinds x.2.now)) result (reading.channel_at inner (kinds tokens.now)) }
    ensures size { IfOk result (λ x. x.1 ≡ nesting (view_expr x.0.value)) }
    ensures within { IfOk result (λ x. x.1 ≤ inner + 1) }
{
    let behind = expect_key(Key::Of, tokens)?;
    let (element, size, rest) = type_at(alloc, inner, behind)?;
    let channel = Expr::Channel {
        size: None,
        element,
        span,
    };
    built(alloc, channel, 1 + size, rest)
}

/// What stands behind `* =>`.
pub fn after_rest(tokens: &[Token]) -> Option<&[Token]>
    ensures { MatchOption result (reading.after_rest (kinds tokens.now) ≡ None)
        (λ rest. reading.after_rest (kinds tokens.now) ≡ Some (kinds rest.now)) }
{
    let behind = after_mark(Mark::Star, tokens)?;
    after_mark(Mark::FatArrow, behind)
}

/// What stands behind a comma, where no brace closes the items there.
pub fn after_comma_inside(tokens: &[Token]) -> Option<&[Token]>
    ensures { MatchOption result (reading.after_comma_inside (kinds tokens.now) ≡ None)
        (λ rest. reading.after_comma_inside (kinds tokens.now) ≡ Some (kinds rest.now)) }
{
    let behind = after_mark(Mark::Comma, tokens)?;
    match after_mark(Mark::CloseBrace, behind) {
        Some(_) => None,
        None => Some(behind),
    }
}

/// `[","] "}"`: whether the comma stands there.
pub fn comma_and_brace(tokens: &[Token]) -> Result<(bool, &[Token]), ReadError>
    ensures { Gives (λ x. (x.0, kinds x.1.now)) result (reading.comma_and_brace (kinds tokens.now)) }
{
    if let Some(behind) = after_mark(Mark::Comma, tokens) {
        let rest = expect_mark(Mark::CloseBrace, behind)?;
        return Ok((true, rest));
    }
    let rest = expect_mark(Mark::CloseBrace, tokens)?;
    Ok((false, rest))
}
