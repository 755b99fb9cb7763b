//! Operations on numbers.

ghost use Rattle.std.specs.Prelude.{◌≡◌, ◌∷◌, [], Some, option_map};
ghost use Rattle.limbo_types.specs.View.{view_ty};
ghost use Rattle.limbo_typed.specs.Sound.{types_of};
ghost use Rattle.limbo_typed.specs.View.{view_exprs};
ghost use Rattle.typed_lower.specs.Kinds as lower;
ghost use Rattle.typed_part.specs.Part as part;
ghost use Rattle.typed_part.specs.Seen.{view_operands};

use crate::kinds::is_of;
use limbo_typed::{Operation, TExpr};
use limbo_types::Ty;
use limbo_values::Kind;

/// The kinds of numbers that an operation takes, one or two.
#[derive(Clone, Copy)]
pub(crate) struct OneOrTwo {
    pub first: Kind,
    pub second: Option<Kind>,
}

fn one(kind: Kind) -> Option<OneOrTwo>
    ensures { option_map view_operands result ≡ Some (kind ∷ []) }
{
    Some(OneOrTwo {
        first: kind,
        second: None,
    })
}

fn two(first: Kind, second: Kind) -> Option<OneOrTwo>
    ensures { option_map view_operands result ≡ Some (first ∷ second ∷ []) }
{
    Some(OneOrTwo {
        first,
        second: Some(second),
    })
}

// The kinds of numbers that an operation takes.
fn operands(operation: Operation) -> Option<OneOrTwo>
    ensures { option_map view_operands result ≡ part.operands operation }
{
    match operation {
        Operation::Arithmetic { operator: _, kind } => two(kind, kind),
        Operation::Shift { shift: _, kind } => two(kind, Kind::Int),
        Operation::Alter { unary: _, kind } => one(kind),
        Operation::Compare {
            comparison: _,
            kind,
        } => two(kind, kind),
        Operation::Not => one(Kind::Int),
        Operation::Convert { from, to: _ } => one(from),
        _ => None,
    }
}

// Of which kind the number is that it gives.
fn kind_given(operation: Operation) -> Kind
    ensures { result ≡ lower.kind_given operation }
{
    match operation {
        Operation::Arithmetic { operator: _, kind } => kind,
        Operation::Shift { shift: _, kind } => kind,
        Operation::Alter { unary: _, kind } => kind,
        Operation::Convert { from: _, to } => to,
        _ => Kind::Int,
    }
}

// Whether an operation takes a number of this type.
fn takes_one(operation: Operation, t: &Ty) -> bool
    ensures { result ≡ part.some_is (λ ks. part.are_of ks (view_ty t.now ∷ [])) (part.operands operation) }
{
    match operands(operation) {
        None => false,
        Some(kinds) => match kinds.second {
            None => is_of(kinds.first, t),
            Some(_) => false,
        },
    }
}

// Whether an operation takes numbers of these types.
fn takes_two(operation: Operation, t: &Ty, u: &Ty) -> bool
    ensures { result ≡ part.some_is (λ ks. part.are_of ks (view_ty t.now ∷ view_ty u.now ∷ [])) (part.operands operation) }
{
    match operands(operation) {
        None => false,
        Some(kinds) => match kinds.second {
            None => false,
            Some(second) => is_of(kinds.first, t) && is_of(second, u),
        },
    }
}

// Whether an operation takes numbers of these types, and of no more.
#[tactic(auto, using(crate::proofs::Operands::takes_no_more))]
fn takes_at_least(operation: Operation, t: &Ty, u: &Ty, others: &[TExpr]) -> bool
    ensures { result ≡ part.some_is
        (λ ks. part.are_of ks (view_ty t.now ∷ view_ty u.now ∷ types_of (view_exprs others.now))) (part.operands operation) }
{
    match others.split_first() {
        None => takes_two(operation, t, u),
        Some(_) => false,
    }
}

// Whether an operation takes a number of this type, and these operands behind it.
#[tactic(auto, using(crate::proofs::Types::expr_type))]
fn takes_first(operation: Operation, t: &Ty, more: &[TExpr]) -> bool
    ensures { result ≡ part.some_is (λ ks. part.are_of ks (view_ty t.now ∷ types_of (view_exprs more.now))) (part.operands operation) }
{
    match more.split_first() {
        None => takes_one(operation, t),
        Some((second, others)) => takes_at_least(operation, t, &second.ty, others),
    }
}

// Whether an operation takes these operands.
#[tactic(auto, using(crate::proofs::Types::expr_type, crate::proofs::Operands::takes_none))]
fn takes(operation: Operation, es: &[TExpr]) -> bool
    ensures { result ≡ part.some_is (λ ks. part.are_of ks (types_of (view_exprs es.now))) (part.operands operation) }
{
    match es.split_first() {
        None => false,
        Some((first, more)) => takes_first(operation, &first.ty, more),
    }
}

/// Whether an operation on such operands gives a number of a type.
pub(crate) fn gives(operation: Operation, es: &[TExpr], t: &Ty) -> bool
    ensures { result ≡ part.gives operation (types_of (view_exprs es.now)) (view_ty t.now) }
{
    takes(operation, es) && is_of(kind_given(operation), t)
}

/// The same of an operation on one number.
pub(crate) fn gives_of_one(operation: Operation, u: &Ty, t: &Ty) -> bool
    ensures { result ≡ part.gives operation (view_ty u.now ∷ []) (view_ty t.now) }
{
    takes_one(operation, u) && is_of(kind_given(operation), t)
}

/// The same of an operation on two numbers.
pub(crate) fn gives_of_two(operation: Operation, u: &Ty, v: &Ty, t: &Ty) -> bool
    ensures { result ≡ part.gives operation (view_ty u.now ∷ view_ty v.now ∷ []) (view_ty t.now) }
{
    takes_two(operation, u, v) && is_of(kind_given(operation), t)
}
