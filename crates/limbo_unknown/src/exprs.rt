//! The names of constant expressions and of initial values.

ghost use Rattle.std.specs.Prelude.{◌≡◌, IfOk};
ghost use Rattle.limbo_tree.specs.View.{view_expr};
ghost use Rattle.limbo_constants.specs.View.{view_parts};
ghost use Rattle.limbo_naming.specs.Told.{Knows};
ghost use Rattle.limbo_unknown.specs.Written as written;
ghost use Rattle.limbo_unknown.specs.Written.{simple, first, in_parts, in_expr};
ghost use Rattle.limbo_unknown.specs.Lacking.{IsTold};

use crate::names::missing_name;
use inf_text::{Span, Text, is_spelled};
use limbo_constants::asked;
use limbo_naming::Naming;
use limbo_tree::Expr;
use std::alloc::{AllocError, Global};

// Whether a name is `iota`, which is declared in each constant expression.
fn is_iota(name: &Text) -> bool
    ensures { result ≡ written.is_iota name.now }
{
    is_spelled(name.as_slice(), "iota")
}

// Where a name alone stands, if it isn't there.
fn missing_simple(
    naming: &Naming,
    scope: Option<u32>,
    in_constant: bool,
    name: &Text,
    at: Span,
) -> Option<Span>
    requires names { Knows naming.now }
    ensures { IsTold naming.now scope (simple in_constant name.now) result }
{
    if in_constant && is_iota(name) {
        return None;
    }
    missing_name(naming, scope, name, at)
}

// Where the first name of a part stands, if it isn't there.
#[tactic(auto, using(limbo_tree::proofs::Exprs::the_views))]
fn missing_first(
    naming: &Naming,
    scope: Option<u32>,
    in_constant: bool,
    part: &Expr,
) -> Option<Span>
    requires names { Knows naming.now }
    ensures { IsTold naming.now scope (first in_constant (view_expr part.now)) result }
{
    match part {
        Expr::Name { name, span } => missing_simple(naming, scope, in_constant, name, *span),
        Expr::Arrow { base, .. } => missing_first(naming, scope, in_constant, base),
        Expr::Dot { base, .. } => missing_first(naming, scope, in_constant, base),
        _ => None,
    }
}

// The same of several parts.
fn missing_in_parts(
    naming: &Naming,
    scope: Option<u32>,
    in_constant: bool,
    parts: &[&Expr],
) -> Option<Span>
    requires names { Knows naming.now }
    ensures { IsTold naming.now scope (in_parts in_constant (view_parts parts.now)) result }
{
    for part in parts {
        if let Some(at) = missing_first(naming, scope, in_constant, part) {
            return Some(at);
        }
    }
    None
}

/// Where a name that an expression asks for stands, if it isn't there.
///
/// # Errors
/// Want of memory.
pub(crate) fn missing_in_expr(
    alloc: Global,
    naming: &Naming,
    scope: Option<u32>,
    in_constant: bool,
    e: &Expr,
) -> Result<Option<Span>, AllocError>
    requires names { Knows naming.now }
    ensures { IfOk result (λ found. IsTold naming.now scope (in_expr in_constant (view_expr e.now)) found) }
{
    let parts = asked(alloc, e)?;
    Ok(missing_in_parts(naming, scope, in_constant, &parts))
}
