//! Whose meaning an expression asks for.

ghost use Rattle.std.specs.Prelude.{◌≡◌, ◌++◌, ◌∷◌, [], IfOk, map};
ghost use Rattle.limbo_tree.specs.View.{view_expr, exprs_of};
ghost use Rattle.limbo_constants.specs.Asked as asking;
ghost use Rattle.limbo_constants.specs.View.{view_parts};

use limbo_tree::Expr;
use std::alloc::{AllocError, Global};

// The parts behind those so far.
#[cycle(asking)]
fn ask<'a>(parts: Vec<&'a Expr>, e: &'a Expr) -> Result<Vec<&'a Expr>, AllocError>
    ensures { IfOk result (λ all. view_parts all.items ≡ view_parts parts.entry.items ++ asking.asked (view_expr e.now)) }
{
    match e {
        Expr::Name { .. } => with(parts, e),
        Expr::Arrow { .. } => with(parts, e),
        Expr::Dot { .. } => with(parts, e),
        Expr::Group { items, .. } => ask_one(parts, items),
        Expr::Unary { operand, .. } => ask(parts, operand),
        Expr::Binary { left, right, .. } => {
            let parts = ask(parts, left)?;
            ask(parts, right)
        }
        _ => Ok(parts),
    }
}

// Those of the one expression in parentheses.
#[cycle(asking)]
fn ask_one<'a>(parts: Vec<&'a Expr>, items: &'a [Expr]) -> Result<Vec<&'a Expr>, AllocError>
    ensures { IfOk result (λ all. view_parts all.items
        ≡ view_parts parts.entry.items ++ asking.asked_of_one (exprs_of (map view_expr items.now))) }
{
    if items.len() != 1 {
        return Ok(parts);
    }
    ask(parts, &items[0])
}

// One part more.
fn with<'a>(parts: Vec<&'a Expr>, e: &'a Expr) -> Result<Vec<&'a Expr>, AllocError>
    ensures { IfOk result (λ all. view_parts all.items ≡ view_parts parts.entry.items ++ view_expr e.now ∷ []) }
{
    let mut parts = parts;
    parts.push(e)?;
    Ok(parts)
}

/// The parts of an expression whose meaning its evaluation asks for, in order: names, `m->k` and `x.k`, each as a whole.
///
/// # Errors
/// Want of memory.
pub fn asked<'a>(alloc: Global, e: &'a Expr) -> Result<Vec<&'a Expr>, AllocError>
    ensures in_order { IfOk result (λ parts. view_parts parts.items ≡ asking.asked (view_expr e.now)) }
{
    ask(Vec::new(alloc), e)
}
