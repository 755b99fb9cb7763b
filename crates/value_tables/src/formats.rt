//! Texts of formats.

ghost use Rattle.std.specs.Prelude.{◌≡◌, ◌++◌, [], ◌∷◌, IfOk, OnOk};
ghost use Rattle.value_code.specs.Code.{doubled, hole_text, format_text as format_of};

use inf_text::Text;
use limbo_typed::{Hole, Piece};
use limbo_values::Kind;
use std::alloc::{AllocError, Global};

// Adds characters that stand for themselves: `%` is doubled.
fn put_doubled(text: &mut Text, chars: &[char]) -> Result<(), AllocError>
    ensures { OnOk result (text.new ≡ text.old ++ doubled chars.now) }
{
    for c in chars {
        if *c == '%' {
            text.push('%')?;
        }
        text.push(*c)?;
    }
    Ok(())
}

// Adds what stands for a hole.
fn put_hole(text: &mut Text, hole: Hole) -> Result<(), AllocError>
    ensures { OnOk result (text.new ≡ text.old ++ hole_text hole) }
{
    match hole {
        Hole::Decimal(Kind::Big) => text.push_all(&['%', 'b', 'd']),
        Hole::Decimal(_) => text.push_all(&['%', 'd']),
        Hole::Character => text.push_all(&['%', 'c']),
        Hole::Hexadecimal => text.push_all(&['%', 'x']),
        Hole::Chars => text.push_all(&['%', 's']),
        Hole::Error => Ok(()),
    }
}

// Adds what stands for a piece.
#[tactic(auto, using(crate::proofs::Texts::format_one))]
fn put_piece(text: &mut Text, piece: &Piece) -> Result<(), AllocError>
    ensures { OnOk result (text.new ≡ text.old ++ format_of (piece.now ∷ [])) }
{
    match piece {
        Piece::Chars(chars) => put_doubled(text, chars.as_slice()),
        Piece::Hole(hole) => put_hole(text, *hole),
    }
}

/// The text of a format, with a mark of the machine's own for each hole.
///
/// # Errors
/// Want of memory.
#[tactic(auto, using(crate::proofs::Texts::format_next))]
pub fn format_text(alloc: Global, pieces: &[Piece]) -> Result<Text, AllocError>
    ensures { IfOk result (λ text. text ≡ format_of pieces.now) }
{
    let mut text = Text::new(alloc);
    for piece in pieces {
        put_piece(&mut text, piece)?;
    }
    Ok(text)
}
