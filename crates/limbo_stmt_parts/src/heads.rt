//! What stands before the `=>` of an arm, and where the statements of an arm or of a block end.

ghost use Rattle.std.specs.Prelude.{◌≡◌, ◌<◌, None, Some, MatchOption, List, map};
ghost use Rattle.limbo_lexer.specs.declared.token.Key.TheVariants as key;
ghost use Rattle.limbo_tree.specs.Stmts.{CaseHead, AltHead, PickHead, HandlerHead};
ghost use Rattle.limbo_tree.specs.View.{view_pattern, view_handler_pattern, names_of, view_boxed};
ghost use Rattle.limbo_reading.specs.Reading.{kinds, Gives};
ghost use Rattle.limbo_reading.specs.Reading as reading;
ghost use Rattle.limbo_reading.specs.Lists as lists;
ghost use Rattle.limbo_stmt_parts.specs.declared.start.Region.TheVariants as region;
ghost use Rattle.limbo_stmt_parts.specs.Heads as heads;

use crate::start::{Region, may_head};
use limbo_expr_parser::expr_at;
use limbo_lexer::{Key, Kind, Mark, Token};
use limbo_reading::{
    Fault, ReadError, after_key, after_mark, expect_choices, expect_mark, place, syntax,
};
use limbo_tree::{Expr, HandlerPattern, Name, Pattern};
use std::alloc::Global;

fn arrow_or(tokens: &[Token]) -> bool
    ensures { result ≡ heads.arrow_or (kinds tokens.now) }
{
    match tokens {
        [
            Token {
                kind: Kind::Mark(Mark::FatArrow),
                ..
            },
            ..
        ] => true,
        [
            Token {
                kind: Kind::Key(Key::Or),
                ..
            },
            ..
        ] => true,
        _ => false,
    }
}

fn star_alone(tokens: &[Token]) -> Option<&[Token]>
    ensures { MatchOption result (heads.star_alone (kinds tokens.now) ≡ None)
        (λ rest. heads.star_alone (kinds tokens.now) ≡ Some (kinds rest.now)) }
{
    match after_mark(Mark::Star, tokens) {
        Some(rest) if arrow_or(rest) => Some(rest),
        _ => None,
    }
}

fn case_pattern_at(
    alloc: Global,
    budget: u32,
    tokens: &[Token],
) -> Result<(Pattern, &[Token]), ReadError>
    requires { budget < 1000 }
    ensures { Gives (λ x. (view_pattern x.0, kinds x.1.now)) result (heads.case_pattern_at budget (kinds tokens.now)) }
{
    if let Some(rest) = star_alone(tokens) {
        return Ok((
            Pattern::Any {
                span: place(tokens),
            },
            rest,
        ));
    }
    let (from, _, rest) = expr_at(alloc, budget, tokens)?;
    let Some(behind) = after_key(Key::To, rest) else {
        return Ok((Pattern::One { value: from }, rest));
    };
    let (to, _, rest) = expr_at(alloc, budget, behind)?;
    Ok((Pattern::Range { from, to }, rest))
}

fn handler_pattern_at(tokens: &[Token]) -> Result<(HandlerPattern, &[Token]), ReadError>
    ensures { Gives (λ x. (view_handler_pattern x.0, kinds x.1.now)) result (heads.handler_pattern_at (kinds tokens.now)) }
{
    match tokens {
        [
            Token {
                kind: Kind::Chars(text),
                span,
            },
            rest @ ..,
        ] => Ok((
            HandlerPattern::Chars {
                text: text.clone()?,
                span: *span,
            },
            rest,
        )),
        [
            Token {
                kind: Kind::Name(name),
                span,
            },
            rest @ ..,
        ] => Ok((
            HandlerPattern::Name {
                name: name.clone()?,
                span: *span,
            },
            rest,
        )),
        [
            Token {
                kind: Kind::Mark(Mark::Star),
                span,
            },
            rest @ ..,
        ] => { Ok((HandlerPattern::Any { span: *span }, rest)) }
        _ => Err(syntax(tokens)),
    }
}

fn case_patterns_at(
    alloc: Global,
    budget: u32,
    tokens: &[Token],
) -> Result<(Vec<Pattern>, &[Token]), ReadError>
    requires { budget < 1000 }
    ensures { Gives (λ x. (map view_pattern x.0.items, kinds x.1.now)) result
        (lists.items (heads.case_pattern_at budget) (reading.after_key key.Or) (kinds tokens.now)) }
{
    let (first, mut rest) = case_pattern_at(alloc, budget, tokens)?;
    let mut patterns = Vec::new(alloc);
    patterns.push(first)?;
    'patterns: while let Some(behind) = after_key(Key::Or, rest) {
        let (pattern, after) = case_pattern_at(alloc, budget, behind)?;
        patterns.push(pattern)?;
        rest = after;
    }
    Ok((patterns, rest))
}

fn handler_patterns_at(
    alloc: Global,
    tokens: &[Token],
) -> Result<(Vec<HandlerPattern>, &[Token]), ReadError>
    ensures { Gives (λ x. (map view_handler_pattern x.0.items, kinds x.1.now)) result
        (lists.items heads.handler_pattern_at (reading.after_key key.Or) (kinds tokens.now)) }
{
    let (first, mut rest) = handler_pattern_at(tokens)?;
    let mut patterns = Vec::new(alloc);
    patterns.push(first)?;
    'patterns: while let Some(behind) = after_key(Key::Or, rest) {
        let (pattern, after) = handler_pattern_at(behind)?;
        patterns.push(pattern)?;
        rest = after;
    }
    Ok((patterns, rest))
}

/// `cpat {"or" cpat} "=>"`
#[tactic(auto, unfolding(crate::specs::Heads::front_at))]
pub fn case_front_at(
    alloc: Global,
    budget: u32,
    tokens: &[Token],
) -> Result<(Vec<Pattern>, &[Token]), ReadError>
    requires { budget < 1000 }
    ensures { Gives (λ x. (CaseHead (map view_pattern x.0.items), kinds x.1.now)) result
        (heads.front_at budget region.Case (kinds tokens.now)) }
{
    let (patterns, rest) = case_patterns_at(alloc, budget, tokens)?;
    let rest = expect_mark(Mark::FatArrow, rest)?;
    Ok((patterns, rest))
}

/// `("*" | expr) "=>"`
#[tactic(auto, unfolding(crate::specs::Heads::front_at))]
pub fn alt_front_at(
    alloc: Global,
    budget: u32,
    tokens: &[Token],
) -> Result<(Option<Box<Expr>>, &[Token]), ReadError>
    requires { budget < 1000 }
    ensures { Gives (λ x. (AltHead (view_boxed x.0), kinds x.1.now)) result (heads.front_at budget region.Alt (kinds tokens.now)) }
{
    if let Some(rest) = star_alone(tokens) {
        let rest = expect_mark(Mark::FatArrow, rest)?;
        return Ok((None, rest));
    }
    let (head, _, rest) = expr_at(alloc, budget, tokens)?;
    let rest = expect_mark(Mark::FatArrow, rest)?;
    Ok((Some(head), rest))
}

/// `("*" | ID {"or" ID}) "=>"`
#[tactic(auto, unfolding(crate::specs::Heads::front_at))]
pub fn pick_front_at(
    alloc: Global,
    budget: u32,
    tokens: &[Token],
) -> Result<(Vec<Name>, &[Token]), ReadError>
    ensures { Gives (λ x. (PickHead (names_of x.0.items), kinds x.1.now)) result (heads.front_at budget region.Pick (kinds tokens.now)) }
{
    if let Some(rest) = after_mark(Mark::Star, tokens) {
        let rest = expect_mark(Mark::FatArrow, rest)?;
        return Ok((Vec::new(alloc), rest));
    }
    let (names, rest) = expect_choices(alloc, tokens)?;
    let rest = expect_mark(Mark::FatArrow, rest)?;
    Ok((names, rest))
}

/// `epat {"or" epat} "=>"`
#[tactic(auto, unfolding(crate::specs::Heads::front_at))]
pub fn handler_front_at(
    alloc: Global,
    budget: u32,
    tokens: &[Token],
) -> Result<(Vec<HandlerPattern>, &[Token]), ReadError>
    ensures { Gives (λ x. (HandlerHead (map view_handler_pattern x.0.items), kinds x.1.now)) result
        (heads.front_at budget region.Handler (kinds tokens.now)) }
{
    let (patterns, rest) = handler_patterns_at(alloc, tokens)?;
    let rest = expect_mark(Mark::FatArrow, rest)?;
    Ok((patterns, rest))
}

// A fault of syntax says that there is no head.
fn no_head(error: ReadError) -> Result<bool, ReadError>
    ensures { result ≡ heads.no_head error }
{
    match error {
        ReadError::Fault {
            fault: Fault::Syntax { .. },
        } => Ok(false),
        _ => Err(error),
    }
}

#[tactic(auto, using(crate::proofs::Patterns::headless), unfolding(crate::specs::Heads::front_at))]
fn is_headed(
    alloc: Global,
    budget: u32,
    region: Region,
    tokens: &[Token],
) -> Result<bool, ReadError>
    requires { budget < 1000 }
    ensures { Gives (λ x. x) result (heads.is_read (heads.front_at budget region (kinds tokens.now))) }
{
    match region {
        Region::Block => Ok(false),
        Region::Case => match case_front_at(alloc, budget, tokens) {
            Ok(_) => Ok(true),
            Err(error) => no_head(error),
        },
        Region::Alt => match alt_front_at(alloc, budget, tokens) {
            Ok(_) => Ok(true),
            Err(error) => no_head(error),
        },
        Region::Pick => match pick_front_at(alloc, budget, tokens) {
            Ok(_) => Ok(true),
            Err(error) => no_head(error),
        },
        Region::Handler => match handler_front_at(alloc, budget, tokens) {
            Ok(_) => Ok(true),
            Err(error) => no_head(error),
        },
    }
}

/// Whether the statements of a region end here: before the brace, or before the next head up to its `=>`.
///
/// # Errors
/// `TooDeep` where the next head would nest too deep; `NoMemory`.
#[tactic(auto, unfolding(crate::specs::Heads::ends))]
pub fn ends(alloc: Global, budget: u32, region: Region, tokens: &[Token]) -> Result<bool, ReadError>
    requires { budget < 1000 }
    ensures { Gives (λ x. x) result (heads.ends budget region (kinds tokens.now)) }
{
    if let Some(_) = after_mark(Mark::CloseBrace, tokens) {
        return Ok(true);
    }
    if !may_head(tokens) {
        return Ok(false);
    }
    is_headed(alloc, budget, region, tokens)
}
