//! Expressions of numbers.

ghost use Rattle.std.specs.Prelude.{◌≡◌, ◌&&◌, ◌∷◌, []};
ghost use Rattle.limbo_types.specs.View.{view_ty};
ghost use Rattle.limbo_values.specs.declared.number.Kind.TheVariants as kind;
ghost use Rattle.limbo_typed.specs.Sound.{type_of, types_of, type_at};
ghost use Rattle.limbo_typed.specs.View as typed;
ghost use Rattle.typed_part.specs.Part as part;
ghost use Rattle.typed_part.specs.Seen.{view_inside};

use crate::calls::{are_printed, calls, is_format, prints};
use crate::inside::Inside;
use crate::kinds::{are_alike, is_number, is_of};
use crate::operations::{gives, gives_of_one, gives_of_two};
use crate::places::{assigns, is_place};
use limbo_typed::{Operation, Pattern, Piece, Place, Printed, TExpr, TNode};
use limbo_types::Ty;
use limbo_values::Kind;

// Whether three types are int.
fn are_ints(t: &Ty, u: &Ty, v: &Ty) -> bool
    ensures { result
        ≡ part.are_of (kind.Int ∷ kind.Int ∷ kind.Int ∷ []) (view_ty t.now ∷ view_ty u.now ∷ view_ty v.now ∷ []) }
{
    is_of(Kind::Int, t) && is_of(Kind::Int, u) && is_of(Kind::Int, v)
}

#[tactic(auto, using(crate::proofs::Types::place_type))]
fn is_read(inside: Inside, t: &Ty, place: &Place) -> bool
    ensures { result ≡ (part.is_place (view_inside inside.entry) (typed.view_place place.now)
        && part.are_alike (view_ty t.now) (type_at (typed.view_place place.now))) }
{
    is_place(inside, place) && are_alike(t, &place.ty)
}

// `++` and `--`
#[tactic(auto, using(crate::proofs::Types::place_type))]
fn is_step(inside: Inside, t: &Ty, operation: Operation, place: &Place) -> bool
    ensures { result ≡ (part.is_place (view_inside inside.entry) (typed.view_place place.now)
        && part.gives operation (type_at (typed.view_place place.now) ∷ []) (type_at (typed.view_place place.now))
        && part.are_alike (view_ty t.now) (type_at (typed.view_place place.now))) }
{
    is_place(inside, place)
        && gives_of_one(operation, &place.ty, &place.ty)
        && are_alike(t, &place.ty)
}

#[cycle(expressions)]
fn is_applied(inside: Inside, t: &Ty, operation: Operation, args: &[TExpr]) -> bool
    ensures { result ≡ (part.are_exprs (view_inside inside.entry) (typed.view_exprs args.now)
        && part.gives operation (types_of (typed.view_exprs args.now)) (view_ty t.now)) }
{
    are_exprs(inside, args) && gives(operation, args, t)
}

// `&&` and `||`
#[cycle(expressions)]
fn is_lazy(inside: Inside, t: &Ty, left: &TExpr, right: &TExpr) -> bool
    ensures { result ≡ (part.is_expr (view_inside inside.entry) (typed.view_expr left.now)
        && part.is_expr (view_inside inside.entry) (typed.view_expr right.now)
        && part.are_of (kind.Int ∷ kind.Int ∷ kind.Int ∷ [])
        (type_of (typed.view_expr left.now) ∷ type_of (typed.view_expr right.now) ∷ view_ty t.now ∷ [])) }
{
    is_expr(inside, left) && is_expr(inside, right) && are_ints(&left.ty, &right.ty, t)
}

#[cycle(expressions)]
fn is_assigned(inside: Inside, t: &Ty, pattern: &Pattern, value: &TExpr) -> bool
    ensures { result ≡ (part.is_expr (view_inside inside.entry) (typed.view_expr value.now)
        && part.assigns (view_inside inside.entry) (typed.view_pattern pattern.now) (type_of (typed.view_expr value.now)) (view_ty t.now)) }
{
    is_expr(inside, value) && assigns(inside, pattern, &value.ty, t)
}

// An assignment with an operator.
#[cycle(expressions)]
fn is_update(inside: Inside, t: &Ty, operation: Operation, place: &Place, value: &TExpr) -> bool
    ensures { result ≡ (part.is_place (view_inside inside.entry) (typed.view_place place.now)
        && part.is_expr (view_inside inside.entry) (typed.view_expr value.now)
        && part.gives operation (type_at (typed.view_place place.now) ∷ type_of (typed.view_expr value.now) ∷ [])
        (type_at (typed.view_place place.now))
        && part.are_alike (view_ty t.now) (type_at (typed.view_place place.now))) }
{
    is_place(inside, place)
        && is_expr(inside, value)
        && gives_of_two(operation, &place.ty, &value.ty, &place.ty)
        && are_alike(t, &place.ty)
}

#[cycle(expressions)]
fn is_call(inside: Inside, t: &Ty, function: u32, args: &[TExpr]) -> bool
    ensures { result ≡ (part.are_exprs (view_inside inside.entry) (typed.view_exprs args.now)
        && part.calls (view_inside inside.entry) function (types_of (typed.view_exprs args.now)) (view_ty t.now)) }
{
    are_exprs(inside, args) && calls(inside, function, args, t)
}

// The arguments and the answer of a print.
#[cycle(expressions)]
fn is_print_of(inside: Inside, t: &Ty, format: &[Piece], args: &[TExpr]) -> bool
    ensures { result ≡ (part.are_exprs (view_inside inside.entry) (typed.view_exprs args.now)
        && part.are_printed format.now (types_of (typed.view_exprs args.now))
        && (part.is_of kind.Int (view_ty t.now) && part.is_format format.now)) }
{
    are_exprs(inside, args)
        && are_printed(format, args)
        && (is_of(Kind::Int, t) && is_format(format))
}

// Expressions, each in the part.
#[cycle(expressions)]
fn are_exprs(inside: Inside, es: &[TExpr]) -> bool
    ensures { result ≡ part.are_exprs (view_inside inside.entry) (typed.view_exprs es.now) }
{
    for e in es {
        if !is_expr(inside, e) {
            return false;
        }
    }
    true
}

#[cycle(expressions)]
fn is_node(inside: Inside, t: &Ty, node: &TNode) -> bool
    ensures { result ≡ part.is_node (view_inside inside.entry) (view_ty t.now) (typed.view_node node.now) }
{
    match node {
        TNode::Number(_) => is_number(t),
        TNode::Read(place) => is_read(inside, t, place),
        TNode::Apply { operation, args } => is_applied(inside, t, *operation, args),
        TNode::Lazy {
            connective: _,
            left,
            right,
        } => is_lazy(inside, t, left, right),
        TNode::Assign { pattern, value } => is_assigned(inside, t, pattern, value),
        TNode::Update {
            operation,
            place,
            value,
        } => is_update(inside, t, *operation, place, value),
        TNode::Step {
            operation,
            given: _,
            place,
        } => is_step(inside, t, *operation, place),
        TNode::Call { function, args } => is_call(inside, t, *function, args),
        TNode::Print {
            printed,
            module,
            file,
            format,
            args,
        } => prints(inside, *printed, module, file) && is_print_of(inside, t, format, args),
        _ => false,
    }
}

/// Whether an expression is one of numbers.
#[cycle(expressions)]
pub(crate) fn is_expr(inside: Inside, e: &TExpr) -> bool
    ensures { result ≡ part.is_expr (view_inside inside.entry) (typed.view_expr e.now) }
{
    is_node(inside, &e.ty, &e.node)
}
