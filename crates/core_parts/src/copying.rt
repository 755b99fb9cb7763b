//! What instructions hold, once more.

ghost use Rattle.std.specs.Prelude.{◌≡◌, IfOk};
ghost use Rattle.core_data.specs.View.{view_way};

use core_data::Way;
use limbo_typed::Piece;
use std::alloc::{AllocError, Global};

fn copy_piece(piece: &Piece) -> Result<Piece, AllocError>
    ensures { IfOk result (λ p. p ≡ piece.now) }
{
    match piece {
        Piece::Chars(text) => Ok(Piece::Chars(text.clone()?)),
        Piece::Hole(hole) => Ok(Piece::Hole(*hole)),
    }
}

/// The pieces of a format once more.
pub fn copy_pieces(alloc: Global, pieces: &[Piece]) -> Result<Vec<Piece>, AllocError>
    ensures { IfOk result (λ v. v.items ≡ pieces.now) }
{
    let mut copies = Vec::new(alloc);
    for piece in pieces {
        copies.push(copy_piece(piece)?)?;
    }
    Ok(copies)
}

/// A way once more.
pub fn copy_way(alloc: Global, way: &Way) -> Result<Way, AllocError>
    ensures { IfOk result (λ copied. view_way copied ≡ view_way way.now) }
{
    Ok(Way {
        root: way.root,
        parts: Vec::from_slice(alloc, &way.parts)?,
        character: way.character,
    })
}
