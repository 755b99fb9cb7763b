//! Parts of statements that hold no statements.

ghost use Rattle.std.specs.Prelude.{◌<◌};
ghost use Rattle.limbo_tree.specs.View.{view_expr, view_boxed, name_of};
ghost use Rattle.limbo_reading.specs.Reading.{kinds, Gives};
ghost use Rattle.limbo_stmt_parts.specs.Jumps as jumps;

use limbo_expr_parser::expr_at;
use limbo_lexer::{Kind, Mark, Token};
use limbo_reading::{ReadError, after_mark, expect_mark, expect_name};
use limbo_tree::{Expr, Name};
use std::alloc::Global;

/// `[ID]`
#[tactic(auto, unfolding(crate::specs::Jumps::label_at))]
pub fn label_at(tokens: &[Token]) -> Result<(Option<Name>, &[Token]), ReadError>
    ensures { Gives (λ x. (name_of x.0, kinds x.1.now)) result (jumps.label_at (kinds tokens.now)) }
{
    match tokens {
        [
            Token {
                kind: Kind::Name(_),
                ..
            },
            ..
        ] => {
            let (name, rest) = expect_name(tokens)?;
            Ok((Some(name), rest))
        }
        _ => Ok((None, tokens)),
    }
}

/// `[expr]` before a sign, and the sign.
#[tactic(auto, unfolding(crate::specs::Jumps::option_before))]
pub fn option_before(
    alloc: Global,
    budget: u32,
    mark: Mark,
    tokens: &[Token],
) -> Result<(Option<Box<Expr>>, &[Token]), ReadError>
    requires { budget < 1000 }
    ensures { Gives (λ x. (view_boxed x.0, kinds x.1.now)) result (jumps.option_before budget mark (kinds tokens.now)) }
{
    if let Some(rest) = after_mark(mark, tokens) {
        return Ok((None, rest));
    }
    let (value, _, rest) = expr_at(alloc, budget, tokens)?;
    let rest = expect_mark(mark, rest)?;
    Ok((Some(value), rest))
}

/// `expr` before a sign, and the sign.
#[tactic(auto, unfolding(crate::specs::Jumps::expr_before))]
pub fn expr_before(
    alloc: Global,
    budget: u32,
    mark: Mark,
    tokens: &[Token],
) -> Result<(Box<Expr>, &[Token]), ReadError>
    requires { budget < 1000 }
    ensures { Gives (λ x. (view_expr x.0.value, kinds x.1.now)) result (jumps.expr_before budget mark (kinds tokens.now)) }
{
    let (value, _, rest) = expr_at(alloc, budget, tokens)?;
    let rest = expect_mark(mark, rest)?;
    Ok((value, rest))
}

/// What stands between the brackets of a `for`.
#[derive(Drop)]
pub struct ForHead {
    pub first: Option<Box<Expr>>,
    pub condition: Option<Box<Expr>>,
    pub next: Option<Box<Expr>>,
}

/// `"(" [expr] ";" [expr] ";" [expr] ")"`
#[tactic(auto, unfolding(crate::specs::Jumps::for_head_at))]
pub fn for_head_at(
    alloc: Global,
    budget: u32,
    tokens: &[Token],
) -> Result<(ForHead, &[Token]), ReadError>
    requires { budget < 1000 }
    ensures { Gives (λ x. (jumps.view_for_head x.0, kinds x.1.now)) result (jumps.for_head_at budget (kinds tokens.now)) }
{
    let rest = expect_mark(Mark::OpenParen, tokens)?;
    let (first, rest) = option_before(alloc, budget, Mark::Semicolon, rest)?;
    let (condition, rest) = option_before(alloc, budget, Mark::Semicolon, rest)?;
    let (next, rest) = option_before(alloc, budget, Mark::CloseParen, rest)?;
    let head = ForHead {
        first,
        condition,
        next,
    };
    Ok((head, rest))
}
