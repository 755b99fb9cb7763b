//! What calls and prints take.

ghost use Rattle.std.specs.Prelude.{◌≡◌, ◌≤◌, ◌*◌, length, nat_le, map};
ghost use Rattle.limbo_types.specs.View.{view_ty};
ghost use Rattle.limbo_typed.specs.Sound.{types_of};
ghost use Rattle.limbo_typed.specs.View as typed;
ghost use Rattle.typed_part.specs.Part as part;
ghost use Rattle.typed_part.specs.Seen.{view_inside};

use crate::inside::Inside;
use crate::kinds::{answers_alike, are_alike, is_of};
use crate::places::global_in;
use limbo_typed::{Hole, Piece, Printed, TExpr};
use limbo_types::Ty;
use limbo_values::Kind;

// Whether expressions have numbers of the kinds of these types.
#[tactic(auto, using(crate::proofs::Types::expr_type))]
fn all_alike(es: &[TExpr], types: &[Ty]) -> bool
    ensures { result ≡ part.all_alike (types_of (typed.view_exprs es.now)) (map view_ty types.now) }
{
    match (es.split_first(), types.split_first()) {
        (None, None) => true,
        (Some((e, more)), Some((t, others))) => are_alike(&e.ty, t) && all_alike(more, others),
        _ => false,
    }
}

/// Whether a function of this number takes such arguments, and has this answer.
pub(crate) fn calls(inside: Inside, function: u32, es: &[TExpr], t: &Ty) -> bool
    ensures { result ≡ part.calls (view_inside inside.entry) function (types_of (typed.view_exprs es.now)) (view_ty t.now) }
{
    match inside.functions.get(function as usize) {
        Some(callee) => all_alike(es, &callee.of.args) && answers_alike(t, &callee.of.answer),
        None => false,
    }
}

// Of which kind the number is that stands for a hole.
fn hole_kind(hole: Hole) -> Option<Kind>
    ensures { result ≡ part.hole_kind hole }
{
    match hole {
        Hole::Decimal(kind) => Some(kind),
        Hole::Character => Some(Kind::Int),
        Hole::Hexadecimal => Some(Kind::Int),
        _ => None,
    }
}

// Whether a number of a type stands for a hole.
fn fills(hole: Hole, t: &Ty) -> bool
    ensures { result ≡ part.some_is (λ k. part.is_of k (view_ty t.now)) (part.hole_kind hole) }
{
    match hole_kind(hole) {
        Some(kind) => is_of(kind, t),
        None => false,
    }
}

/// Whether a format takes these arguments.
#[tactic(auto, using(crate::proofs::Types::expr_type))]
pub(crate) fn are_printed(pieces: &[Piece], es: &[TExpr]) -> bool
    ensures { result ≡ part.are_printed pieces.now (types_of (typed.view_exprs es.now)) }
{
    match pieces.split_first() {
        None => match es.split_first() {
            None => true,
            Some(_) => false,
        },
        Some((piece, more)) => match piece {
            Piece::Chars(_) => are_printed(more, es),
            Piece::Hole(hole) => match es.split_first() {
                None => false,
                Some((e, others)) => fills(*hole, &e.ty) && are_printed(more, others),
            },
        },
    }
}

// How many characters these are as they are written in a format.
fn written_size(chars: &[char]) -> usize
    ensures size { result ≡ part.written_size chars.now }
    ensures few { result ≤ 2 * length chars.now }
{
    let mut size = 0;
    for c in chars {
        size += if *c == '%' { 2 } else { 1 };
    }
    size
}

fn hole_size(hole: Hole) -> usize
    ensures { result ≡ part.hole_size hole }
{
    match hole {
        Hole::Decimal(Kind::Big) => 3,
        Hole::Decimal(_) => 2,
        Hole::Character => 2,
        Hole::Hexadecimal => 2,
        _ => 0,
    }
}

fn piece_size(piece: &Piece) -> usize
    ensures { result ≡ part.piece_size piece.now }
{
    match piece {
        Piece::Chars(chars) => written_size(chars.as_slice()),
        Piece::Hole(hole) => hole_size(*hole),
    }
}

// Whether the text of a format has at most so many characters.
#[tactic(auto, using(crate::proofs::Sizes::one_more, crate::proofs::Sizes::nothing_fits))]
fn has_room(pieces: &[Piece], most: usize) -> bool
    ensures { result ≡ nat_le (part.format_size pieces.now) most }
{
    match pieces.split_first() {
        None => true,
        Some((piece, more)) => {
            let size = piece_size(piece);
            size <= most && has_room(more, most - size)
        }
    }
}

/// Whether the text of a format is a string.
pub(crate) fn is_format(pieces: &[Piece]) -> bool
    ensures { result ≡ part.is_format pieces.now }
{
    has_room(pieces, 16_777_216)
}

fn is_print(printed: Printed) -> bool
    ensures { result ≡ part.is_print printed }
{
    match printed {
        Printed::Print => true,
        _ => false,
    }
}

#[tactic(auto, using(limbo_typed::proofs::View::the_exprs))]
fn is_absent(e: &Option<Box<TExpr>>) -> bool
    ensures { result ≡ part.is_absent (typed.view_optional e.now) }
{
    e.is_none()
}

fn same_number(a: Option<u32>, b: Option<u32>) -> bool
    ensures { result ≡ part.same_number a b }
{
    match a {
        None => false,
        Some(number) => match b {
            None => false,
            Some(other) => number == other,
        },
    }
}

/// Whether what is printed so is a `print` through the variable that `Sys` was loaded into.
pub(crate) fn prints(
    inside: Inside,
    printed: Printed,
    module: &TExpr,
    file: &Option<Box<TExpr>>,
) -> bool
    ensures { result ≡ part.prints (view_inside inside.entry) printed (typed.view_expr module.now) (typed.view_optional file.now) }
{
    is_print(printed) && is_absent(file) && same_number(inside.loaded, global_in(module))
}
