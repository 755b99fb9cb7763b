//! Places of values, one behind the other.

ghost use Rattle.std.specs.Prelude.{◌≡◌, ◌+◌, ◌≤◌, map, Some, option_to_list};
ghost use Rattle.slot_code.specs.Layout as layout;
ghost use Rattle.dis_objects.specs.Frames as frames;
ghost use Rattle.dis_objects.specs.Sites.{piece_kinds};

use limbo_typed::{Hole, Piece};
use limbo_values::Kind;

/// Where the linkage of a frame ends.
pub(crate) const LINKAGE: u32 = 32;

/// Where the numbers of a print begin in its frame.
pub(crate) const FIRST_PRINTED: u32 = 36;

// How many bytes a number has.
fn number_size(kind: Kind) -> u32
    ensures value { result ≡ layout.number_size kind }
    ensures some { 1 ≤ result }
    ensures few { result ≤ 8 }
{
    match kind {
        Kind::Byte => 1,
        Kind::Int => 4,
        Kind::Big => 8,
    }
}

// How many a number or a reference has.
fn size_of(kind: Option<Kind>) -> u32
    ensures value { result ≡ layout.size_of kind }
    ensures some { 1 ≤ result }
    ensures few { result ≤ 8 }
{
    match kind {
        None => 4,
        Some(number) => number_size(number),
    }
}

/// The next whole word.
pub(crate) fn whole(bytes: u32) -> u32
    requires { bytes ≤ 1048576 }
    ensures { result ≡ frames.whole bytes }
{
    bytes.next_multiple_of(4)
}

/// The next place for a value, from a place on.
#[tactic(auto, using(crate::proofs::Layouts::rounds))]
pub(crate) fn place_for(kind: Option<Kind>, from: u32) -> u32
    requires { from ≤ 1048576 }
    ensures { result ≡ layout.place_for kind from }
{
    from.next_multiple_of(size_of(kind))
}

/// The place behind it.
#[tactic(auto, using(crate::proofs::Layouts::rounds))]
pub(crate) fn place_behind(kind: Option<Kind>, from: u32) -> u32
    requires { from ≤ 1048576 }
    ensures { result ≡ layout.place_for kind from + layout.size_of kind }
{
    place_for(kind, from) + size_of(kind)
}

/// The place behind these values, which stand from a place on.
#[tactic(auto, using(crate::proofs::Layouts::end_grows))]
pub(crate) fn end_of(from: u32, kinds: &[Option<Kind>]) -> u32
    requires { layout.end_of from kinds.now ≤ 1048576 }
    ensures { result ≡ layout.end_of from kinds.now }
{
    let mut end = from;
    for kind in kinds {
        end = place_behind(*kind, end);
    }
    end
}

/// The place of one of them, by its number.
#[tactic(auto, using(crate::proofs::Layouts::end_grows))]
pub(crate) fn place_in(from: u32, kinds: &[Option<Kind>], number: usize) -> u32
    requires { layout.end_of from kinds.now ≤ 1048576 }
    ensures { result ≡ layout.place_in from kinds.now number }
{
    let mut at = from;
    let mut left = number;
    for kind in kinds {
        if left == 0 {
            return place_for(*kind, at);
        }
        at = place_behind(*kind, at);
        left -= 1;
    }
    at
}

// Of which kind the number is that a hole takes.
fn hole_kind(hole: Hole) -> Option<Kind>
    ensures { frames.hole_kinds hole ≡ option_to_list result }
{
    match hole {
        Hole::Decimal(Kind::Big) => Some(Kind::Big),
        Hole::Decimal(_) => Some(Kind::Int),
        Hole::Character => Some(Kind::Int),
        Hole::Hexadecimal => Some(Kind::Int),
        Hole::Chars => None,
        Hole::Error => None,
    }
}

// Of which kind the number is that a piece of a format takes.
fn piece_kind(piece: &Piece) -> Option<Kind>
    ensures { piece_kinds piece.now ≡ option_to_list result }
{
    match piece {
        Piece::Chars(_) => None,
        Piece::Hole(hole) => hole_kind(*hole),
    }
}

/// The place behind the numbers of a print.
#[tactic(auto, using(crate::proofs::Layouts::end_grows))]
pub(crate) fn printed_end(pieces: &[Piece]) -> u32
    requires { layout.end_of 32 (frames.print_parameters pieces.now) ≤ 1048576 }
    ensures { result ≡ layout.end_of 32 (frames.print_parameters pieces.now) }
{
    let mut end = FIRST_PRINTED;
    for piece in pieces {
        if let Some(kind) = piece_kind(piece) {
            end = place_behind(Some(kind), end);
        }
    }
    end
}

/// The place of one of them, by its number.
#[tactic(auto, using(crate::proofs::Layouts::end_grows))]
pub(crate) fn printed_place(pieces: &[Piece], number: usize) -> u32
    requires { layout.end_of 32 (frames.print_parameters pieces.now) ≤ 1048576 }
    ensures { result ≡ layout.place_in 32 (frames.print_parameters pieces.now) (1 + number) }
{
    let mut at = FIRST_PRINTED;
    let mut left = number;
    for piece in pieces {
        if let Some(kind) = piece_kind(piece) {
            if left == 0 {
                return place_for(Some(kind), at);
            }
            at = place_behind(Some(kind), at);
            left -= 1;
        }
    }
    at
}
