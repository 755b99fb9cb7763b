//! Sources: what stands at the top level, in order.

ghost use Rattle.std.specs.Prelude.{◌≡◌, ◌<◌, map};
ghost use Rattle.limbo_tree.specs.Sources.{Defined};
ghost use Rattle.limbo_tree.specs.View.{view_fn, view_block, view_top, view_source, name_of};
ghost use Rattle.limbo_reading.specs.Reading.{kinds, Gives};
ghost use Rattle.limbo_parser.specs.Sources as sources;

use inf_text::Text;
use limbo_decl_parser::{decl_at, fn_at};
use limbo_lexer::{Key, Kind, Mark, Token};
use limbo_reading::{
    ReadError, after_key, after_mark, expect_key, expect_mark, expect_name, place, syntax,
};
use limbo_stmt_parser::block_at;
use limbo_tree::{Function, Name, Source, Top};
use std::alloc::Global;

fn defines(tokens: &[Token]) -> bool
    ensures { result ≡ sources.defines (kinds tokens.now) }
{
    match tokens {
        [
            Token {
                kind: Kind::Name(_),
                ..
            },
            Token {
                kind: Kind::Mark(mark),
                ..
            },
            ..
        ] => { *mark == Mark::OpenParen || *mark == Mark::Dot }
        _ => false,
    }
}

fn part_at(tokens: &[Token]) -> Result<(Option<Name>, &[Token]), ReadError>
    ensures { Gives (λ x. (name_of x.0, kinds x.1.now)) result (sources.part_at (kinds tokens.now)) }
{
    let Some(behind) = after_mark(Mark::Dot, tokens) else {
        return Ok((None, tokens));
    };
    let (name, rest) = expect_name(behind)?;
    Ok((Some(name), rest))
}

#[tactic(auto, unfolding(crate::specs::Sources::defined_at))]
fn defined_at(
    alloc: Global,
    budget: u32,
    tokens: &[Token],
) -> Result<(Box<Function>, &[Token]), ReadError>
    requires { budget < 1000 }
    ensures { Gives (λ x. (
      Defined x.0.value.name.text (name_of x.0.value.part) (view_fn x.0.value.of) (view_block x.0.value.body),
      kinds x.1.now,
    )) result
        (sources.defined_at budget (kinds tokens.now)) }
{
    let (name, rest) = expect_name(tokens)?;
    let (part, rest) = part_at(rest)?;
    let (of, rest) = fn_at(alloc, budget, rest)?;
    let (body, rest) = block_at(alloc, budget, rest)?;
    let span = place(tokens);
    let function = Function {
        name,
        part,
        of,
        body,
        span,
    };
    Ok((Box::new(alloc, function)?, rest))
}

fn expect_chars(tokens: &[Token]) -> Result<(Text, &[Token]), ReadError>
    ensures { Gives (λ x. (x.0, kinds x.1.now)) result (sources.expect_chars (kinds tokens.now)) }
{
    match tokens {
        [
            Token {
                kind: Kind::Chars(text),
                ..
            },
            rest @ ..,
        ] => Ok((text.clone()?, rest)),
        _ => Err(syntax(tokens)),
    }
}

#[tactic(auto, unfolding(crate::specs::Sources::top_at))]
fn top_at(alloc: Global, budget: u32, tokens: &[Token]) -> Result<(Top, &[Token]), ReadError>
    requires { budget < 1000 }
    ensures { Gives (λ x. (view_top x.0, kinds x.1.now)) result (sources.top_at budget (kinds tokens.now)) }
{
    if let Some(behind) = after_key(Key::Include, tokens) {
        let (path, rest) = expect_chars(behind)?;
        let rest = expect_mark(Mark::Semicolon, rest)?;
        let span = place(tokens);
        return Ok((Top::Include { path, span }, rest));
    }
    if defines(tokens) {
        let (function, rest) = defined_at(alloc, budget, tokens)?;
        return Ok((Top::Define { function }, rest));
    }
    let (decl, rest) = decl_at(alloc, budget, tokens)?;
    Ok((Top::Declare { decl }, rest))
}

fn at_end(tokens: &[Token]) -> bool
    ensures { result ≡ sources.at_end (kinds tokens.now) }
{
    match tokens {
        [
            Token {
                kind: Kind::End,
                ..
            },
            ..
        ] => true,
        _ => false,
    }
}

fn is_last(tokens: &[Token]) -> bool
    ensures { result ≡ sources.is_last (kinds tokens.now) }
{
    match tokens {
        [
            Token {
                kind: Kind::End,
                ..
            },
        ] => true,
        _ => false,
    }
}

fn tops_at(alloc: Global, budget: u32, tokens: &[Token]) -> Result<(Vec<Top>, &[Token]), ReadError>
    requires { budget < 1000 }
    ensures { Gives (λ x. (map view_top x.0.items, kinds x.1.now)) result (sources.tops_at budget (kinds tokens.now)) }
{
    let mut tops = Vec::new(alloc);
    let mut rest = tokens;
    'tops: loop {
        if at_end(rest) {
            return Ok((tops, rest));
        }
        let (top, after) = top_at(alloc, budget, rest)?;
        tops.push(top)?;
        rest = after;
    }
}

#[tactic(auto, unfolding(crate::specs::Sources::implements_at))]
fn implements_at(included: bool, tokens: &[Token]) -> Result<(Option<Name>, &[Token]), ReadError>
    ensures { Gives (λ x. (name_of x.0, kinds x.1.now)) result (sources.implements_at included (kinds tokens.now)) }
{
    if included {
        return Ok((None, tokens));
    }
    let rest = expect_key(Key::Implement, tokens)?;
    let (name, rest) = expect_name(rest)?;
    let rest = expect_mark(Mark::Semicolon, rest)?;
    Ok((Some(name), rest))
}

/// The tree of the tokens, all of them, of nesting up to the budget.
///
/// # Errors
/// `Syntax` or `TooDeep` at the first token that no source goes on with; `NoMemory`.
#[tactic(auto, unfolding(crate::specs::Sources::tree_at))]
pub fn tree_at(
    alloc: Global,
    budget: u32,
    included: bool,
    tokens: &[Token],
) -> Result<Source, ReadError>
    requires { budget < 1000 }
    ensures { Gives view_source result (sources.tree_at budget included (kinds tokens.now)) }
{
    let (implements, rest) = implements_at(included, tokens)?;
    let (tops, rest) = tops_at(alloc, budget, rest)?;
    if !is_last(rest) {
        return Err(syntax(rest));
    }
    Ok(Source { implements, tops })
}
