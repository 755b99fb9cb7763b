//! What expressions come to.

ghost use Rattle.std.specs.Prelude.{◌≡◌, IfOk, if◌then◌else◌, map, option_map};
ghost use Rattle.limbo_tree.specs.View.{view_expr, exprs_of};
ghost use Rattle.limbo_constants.specs.Constants as constants;
ghost use Rattle.limbo_constants.specs.View.{view_operand, view_found};

use crate::constant::{Constant, Outcome};
use crate::known::Known;
use crate::operand::{Found, Held, Operand};
use crate::values::{binary_of, unary_of};
use limbo_tree::Expr;
use limbo_values::{Kind, Number};
use std::alloc::{AllocError, Global};

// A number: an int, or a big where it is written as one.
fn literal(value: i64, wide: bool) -> Number
    ensures { result ≡ constants.of_kind (if wide then Kind.Big else Kind.Int) value }
{
    let kind = if wide { Kind::Big } else { Kind::Int };
    Number::Big(value).to_kind(kind)
}

// What a part means.
fn named<'a, K: Known>(known: &'a K, part: &Expr) -> Option<Found<'a>>
    ensures { option_map view_found result ≡ option_map (λ a. Outcome.Gives a) (K.meant known.now (view_expr part.now)) }
{
    match known.meant(part) {
        Some(constant) => Some(Found::Gives(Operand::lent(constant))),
        None => None,
    }
}

// What an expression without operators comes to.
#[tactic(auto, using(limbo_tree::proofs::Exprs::the_views))]
fn leaf<'a, K: Known>(known: &'a K, e: &'a Expr) -> Option<Found<'a>>
    ensures { option_map view_found result ≡ constants.leaf (K.meant known.now) (view_expr e.now) }
{
    match e {
        Expr::Number { value, wide, .. } => {
            let number = literal(*value, *wide);
            Some(Found::Gives(Operand::Number(number)))
        }
        Expr::Chars { text, .. } => Some(Found::Gives(Operand::Chars(Held::Lent(text)))),
        Expr::Name { .. } => named(known, e),
        Expr::Arrow { .. } => named(known, e),
        Expr::Dot { .. } => named(known, e),
        _ => None,
    }
}

// What an expression comes to. A string is copied nowhere but where two are joined.
#[cycle(finding)]
fn find<'a, K: Known>(
    alloc: Global,
    known: &'a K,
    e: &'a Expr,
) -> Result<Option<Found<'a>>, AllocError>
    ensures { IfOk result (λ found. option_map view_found found ≡ constants.outcome (K.meant known.now) (view_expr e.now)) }
{
    match e {
        Expr::Group { items, .. } => find_one(alloc, known, items),
        Expr::Unary { op, operand, .. } => {
            let operand = find(alloc, known, operand)?;
            Ok(unary_of(*op, operand))
        }
        Expr::Binary {
            op,
            left,
            right,
            ..
        } => {
            let left = find(alloc, known, left)?;
            let right = find(alloc, known, right)?;
            binary_of(alloc, *op, left, right)
        }
        _ => Ok(leaf(known, e)),
    }
}

// What the one expression in parentheses comes to.
#[cycle(finding)]
fn find_one<'a, K: Known>(
    alloc: Global,
    known: &'a K,
    items: &'a [Expr],
) -> Result<Option<Found<'a>>, AllocError>
    ensures { IfOk result (λ found. option_map view_found found
        ≡ constants.outcome_of_one (K.meant known.now) (exprs_of (map view_expr items.now))) }
{
    if items.len() != 1 {
        return Ok(None);
    }
    find(alloc, known, &items[0])
}

/// What the evaluation of an expression comes to, where `known` says what names, `m->k` and `x.k` mean: none where it isn't
/// constant, or its operands' sorts don't fit (Limbo Language Reference, constant expressions).
///
/// # Errors
/// Want of memory.
pub fn outcome_of<K: Known>(
    alloc: Global,
    known: &K,
    e: &Expr,
) -> Result<Option<Outcome>, AllocError>
    ensures comes_to { IfOk result (λ outcome. outcome ≡ constants.outcome (K.meant known.now) (view_expr e.now)) }
{
    match find(alloc, known, e)? {
        Some(found) => Ok(Some(found.into_outcome()?)),
        None => Ok(None),
    }
}

/// The constant that an expression is: none where it isn't constant, or its evaluation would raise.
///
/// # Errors
/// Want of memory.
pub fn evaluate<K: Known>(
    alloc: Global,
    known: &K,
    e: &Expr,
) -> Result<Option<Constant>, AllocError>
    ensures comes_to { IfOk result (λ constant. constant ≡ constants.constant_in (K.meant known.now) (view_expr e.now)) }
{
    match outcome_of(alloc, known, e)? {
        Some(Outcome::Gives(constant)) => Ok(Some(constant)),
        Some(Outcome::Raises(_)) => Ok(None),
        None => Ok(None),
    }
}
