//! The statements that end in a semicolon behind a keyword.

ghost use Rattle.std.specs.Prelude.{◌≡◌, ◌<◌, Ok, List};
ghost use Rattle.limbo_lexer.specs.declared.token.Kind.{Kind};
ghost use Rattle.limbo_tree.specs.Stmts as trees;
ghost use Rattle.limbo_tree.specs.Exprs.{is_postfix};
ghost use Rattle.limbo_tree.specs.View.{view_expr, view_stmt};
ghost use Rattle.limbo_reading.specs.Reading.{kinds, Gives};
ghost use Rattle.limbo_stmt_parts.specs.Jumps as jumps;

use inf_text::Span;
use limbo_expr_parser::unary_at;
use limbo_lexer::{Mark, Token};
use limbo_reading::{ReadError, expect_mark, syntax};
use limbo_stmt_parts::{Jump, label_at, option_before};
use limbo_tree::{Expr, Stmt};
use std::alloc::Global;

/// A statement that was read, in a box of its own, and what stands behind it.
///
/// # Errors
/// `NoMemory`.
pub fn built(alloc: Global, tree: Stmt, rest: &[Token]) -> Result<(Box<Stmt>, &[Token]), ReadError>
    ensures { Gives {Y = trees.Stmt × List Kind} (λ x. (view_stmt x.0.value, kinds x.1.now)) result (Ok (view_stmt tree, kinds rest.now)) }
{
    Ok((Box::new(alloc, tree)?, rest))
}

// A statement that was read up to its semicolon, in a box of its own, and what stands behind that.
fn ended(alloc: Global, tree: Stmt, tokens: &[Token]) -> Result<(Box<Stmt>, &[Token]), ReadError>
    ensures { Gives (λ x. (view_stmt x.0.value, kinds x.1.now)) result (jumps.ended (view_stmt tree) (kinds tokens.now)) }
{
    let tree = Box::new(alloc, tree)?;
    let rest = expect_mark(Mark::Semicolon, tokens)?;
    Ok((tree, rest))
}

#[tactic(auto, using(crate::proofs::Postfixes::the_postfixes))]
fn is_call(value: &Expr) -> bool
    ensures { result ≡ is_postfix (view_expr value.now) }
{
    match value {
        Expr::Assign { .. } | Expr::Load { .. } | Expr::Binary { .. } | Expr::Unary { .. } => false,
        Expr::Bytes { .. } | Expr::Filled { .. } | Expr::Sized { .. } => false,
        Expr::Channel { .. } | Expr::Listed { .. } => false,
        _ => true,
    }
}

#[tactic(auto, using(limbo_tree::proofs::Stmts::the_stmt_views), unfolding(limbo_stmt_parts::specs::Jumps::spawned_at))]
fn spawned_at(
    alloc: Global,
    budget: u32,
    span: Span,
    tokens: &[Token],
) -> Result<(Box<Stmt>, &[Token]), ReadError>
    requires { budget < 1000 }
    ensures { Gives (λ x. (view_stmt x.0.value, kinds x.1.now)) result (jumps.spawned_at budget (kinds tokens.now)) }
{
    let (call, _, rest) = unary_at(alloc, budget, tokens)?;
    if !is_call(&*call) {
        return Err(syntax(tokens));
    }
    ended(alloc, Stmt::Spawn { call, span }, rest)
}

/// What stands behind the keyword of a statement that ends in a semicolon.
#[tactic(auto, using(limbo_tree::proofs::Stmts::the_stmt_views), unfolding(limbo_stmt_parts::specs::Jumps::jump_above))]
pub fn jump_at(
    alloc: Global,
    budget: u32,
    span: Span,
    jump: Jump,
    tokens: &[Token],
) -> Result<(Box<Stmt>, &[Token]), ReadError>
    requires { budget < 1000 }
    ensures { Gives (λ x. (view_stmt x.0.value, kinds x.1.now)) result (jumps.jump_above budget jump (kinds tokens.now)) }
{
    match jump {
        Jump::Break => {
            let (label, rest) = label_at(tokens)?;
            ended(alloc, Stmt::Break { label, span }, rest)
        }
        Jump::Continue => {
            let (label, rest) = label_at(tokens)?;
            ended(alloc, Stmt::Continue { label, span }, rest)
        }
        Jump::Return => {
            let (value, rest) = option_before(alloc, budget, Mark::Semicolon, tokens)?;
            built(alloc, Stmt::Return { value, span }, rest)
        }
        Jump::Exit => ended(alloc, Stmt::Exit { span }, tokens),
        Jump::Spawn => spawned_at(alloc, budget, span, tokens),
        Jump::Raise => {
            let (value, rest) = option_before(alloc, budget, Mark::Semicolon, tokens)?;
            built(alloc, Stmt::Raise { value, span }, rest)
        }
    }
}
