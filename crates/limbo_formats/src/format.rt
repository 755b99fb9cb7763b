//! Formats of prints.

ghost use Rattle.std.specs.Prelude.{◌≡◌, IfOk, IfSome, IfNone, [], map, List};
ghost use Rattle.limbo_types.specs.View.{view_ty};
ghost use Rattle.limbo_typed.specs.declared.print.Piece as code_piece;
ghost use Rattle.limbo_forms.specs.ArgTypes.{arg_types};
ghost use Rattle.limbo_formats.specs.Formats.{IsFormat, Fits};
ghost use Rattle.limbo_formats.specs.FormatReading as reading;
ghost use Rattle.limbo_formats.specs.declared.format.FormatPart as code_part;

use inf_text::Text;
use limbo_typed::{Hole, Piece, TExpr};
use limbo_types::Ty;
use limbo_values::Kind;
use std::alloc::{AllocError, Global};
use std::mem;

/// What a format asks for with an argument.
#[derive(Clone, Copy)]
pub enum Verb {
    /// `%d`: an int or a byte.
    Decimal,
    /// `%bd`: a big.
    Big,
    /// `%s`: a string.
    Chars,
    /// `%c`: an int, as a character.
    Character,
    /// `%x`: an int, in hexadecimal.
    Hexadecimal,
}

/// A part of a format, before it is known which arguments stand behind it.
#[derive(Drop)]
pub enum FormatPart {
    /// Characters that stand for themselves; `%%` is the character `%` here.
    Chars(Text),
    /// `%r`: the text of the last error.
    Error,
    /// What an argument stands in for.
    Argument(Verb),
}

// What of a verb was read: nothing, a `%`, or `%b`.
#[derive(Clone, Copy)]
enum Seen {
    Nothing,
    Percent,
    PercentB,
}

// The verb that one letter is behind a `%`.
fn verb_of(c: char) -> Option<Verb>
    ensures { result ≡ reading.verb_of c }
{
    if c == 'd' {
        Some(Verb::Decimal)
    } else if c == 's' {
        Some(Verb::Chars)
    } else if c == 'c' {
        Some(Verb::Character)
    } else if c == 'x' {
        Some(Verb::Hexadecimal)
    } else {
        None
    }
}

// Adds the characters so far as a part, where there are any.
fn close(alloc: Global, parts: &mut Vec<FormatPart>, chars: &mut Text) -> Result<(), AllocError>
    ensures parts { IfOk result (λ _. parts.new.items ≡ reading.closed parts.old.items chars.old) }
    ensures chars { IfOk result (λ _. chars.new ≡ []) }
{
    if chars.len() == 0 {
        return Ok(());
    }
    let run = mem::replace(chars, Text::new(alloc));
    parts.push(FormatPart::Chars(run))?;
    Ok(())
}

// Adds a part behind the characters so far.
fn add(
    alloc: Global,
    parts: &mut Vec<FormatPart>,
    chars: &mut Text,
    part: FormatPart,
) -> Result<(), AllocError>
    ensures parts { IfOk result (λ _. parts.new.items ≡ reading.added parts.old.items chars.old part) }
    ensures chars { IfOk result (λ _. chars.new ≡ []) }
{
    close(alloc, parts, chars)?;
    parts.push(part)?;
    Ok(())
}

// The parts of a format of which all is read, or none where it ends in a verb.
fn finish(
    alloc: Global,
    mut parts: Vec<FormatPart>,
    mut chars: Text,
    seen: Seen,
) -> Result<Option<Vec<FormatPart>>, AllocError>
    ensures { IfOk result (λ ps. reading.IsRead (reading.parts parts.items chars seen []) ps) }
{
    match seen {
        Seen::Nothing => {
            close(alloc, &mut parts, &mut chars)?;
            Ok(Some(parts))
        }
        Seen::Percent => Ok(None),
        Seen::PercentB => Ok(None),
    }
}

// The parts of a format, or none.
#[tactic(auto, unfolding(crate::specs::FormatReading::format_of))]
fn read(alloc: Global, text: &[char]) -> Result<Option<Vec<FormatPart>>, AllocError>
    ensures { IfOk result (λ ps. reading.IsRead (reading.format_of text.now) ps) }
{
    let mut parts = Vec::new(alloc);
    let mut chars = Text::new(alloc);
    let mut seen = Seen::Nothing;
    for c in text {
        match seen {
            Seen::Nothing => {
                if *c == '%' {
                    seen = Seen::Percent;
                } else {
                    chars.push(*c)?;
                }
            }
            Seen::Percent => {
                seen = Seen::Nothing;
                if *c == '%' {
                    chars.push('%')?;
                } else if *c == 'b' {
                    seen = Seen::PercentB;
                } else if *c == 'r' {
                    add(alloc, &mut parts, &mut chars, FormatPart::Error)?;
                } else {
                    let Some(verb) = verb_of(*c) else {
                        return Ok(None);
                    };
                    add(alloc, &mut parts, &mut chars, FormatPart::Argument(verb))?;
                }
            }
            Seen::PercentB => {
                if *c != 'd' {
                    return Ok(None);
                }
                seen = Seen::Nothing;
                let big = FormatPart::Argument(Verb::Big);
                add(alloc, &mut parts, &mut chars, big)?;
            }
        }
    }
    finish(alloc, parts, chars, seen)
}

/// The parts of a format: runs of characters that stand for themselves, as long as they go, and what stands between them. There are
/// none where a `%` begins no verb, or stands at the end.
///
/// # Errors
/// Want of memory.
pub fn parts_of(alloc: Global, text: &Text) -> Result<Option<Vec<FormatPart>>, AllocError>
    // The text is written so.
    ensures found { IfOk result (λ ps. IfSome ps (λ ps. IsFormat text.now ps.items)) }
    // Where there are no parts, it is no format.
    ensures none { IfOk result (λ ps. IfNone ps ((qs : List code_part.FormatPart) → IsFormat text.now qs → ⊥)) }
{
    read(alloc, text.as_slice())
}

// What an argument of this type stands in for.
#[tactic(auto, using(limbo_types::proofs::View::the_types, crate::proofs::Holes::the_holes))]
fn hole_for(verb: Verb, t: &Ty) -> Option<Hole>
    ensures { result ≡ reading.hole_for verb (view_ty t.now) }
{
    match verb {
        Verb::Decimal => match t {
            Ty::Int => Some(Hole::Decimal(Kind::Int)),
            Ty::Byte => Some(Hole::Decimal(Kind::Byte)),
            _ => None,
        },
        Verb::Big => match t {
            Ty::Big => Some(Hole::Decimal(Kind::Big)),
            _ => None,
        },
        Verb::Chars => match t {
            Ty::Chars => Some(Hole::Chars),
            Ty::Nil => Some(Hole::Chars),
            _ => None,
        },
        Verb::Character => match t {
            Ty::Int => Some(Hole::Character),
            _ => None,
        },
        Verb::Hexadecimal => match t {
            Ty::Int => Some(Hole::Hexadecimal),
            _ => None,
        },
    }
}

// The pieces of a format with these arguments, or none.
fn pieces(
    alloc: Global,
    parts: &[FormatPart],
    args: &[TExpr],
) -> Result<Option<Vec<Piece>>, AllocError>
    ensures { IfOk result (λ ps. reading.IsFitted (reading.fitted [] parts.now (arg_types args.now)) ps) }
{
    let mut pieces = Vec::new(alloc);
    let mut rest = args;
    for part in parts {
        match part {
            FormatPart::Chars(text) => pieces.push(Piece::Chars(text.clone()?))?,
            FormatPart::Error => pieces.push(Piece::Hole(Hole::Error))?,
            FormatPart::Argument(verb) => {
                let Some((arg, behind)) = rest.split_first() else {
                    return Ok(None);
                };
                let Some(hole) = hole_for(*verb, &arg.ty) else {
                    return Ok(None);
                };
                pieces.push(Piece::Hole(hole))?;
                rest = behind;
            }
        }
    }
    if !rest.is_empty() {
        return Ok(None);
    }
    Ok(Some(pieces))
}

/// The pieces of a format that has these parts, each with the kind of number that its argument is. There are none where an argument
/// has another type than its verb takes, and where there are too few arguments or too many. An open `nil` is a string for `%s`:
/// `holes` of the pieces says for each argument which type is asked of it.
///
/// # Errors
/// Want of memory.
pub fn fit(
    alloc: Global,
    parts: &[FormatPart],
    args: &[TExpr],
) -> Result<Option<Vec<Piece>>, AllocError>
    // The arguments fit the parts, which are these pieces then.
    ensures found { IfOk result (λ ps. IfSome ps (λ ps. Fits parts.now (arg_types args.now) ps.items)) }
    // Where there are no pieces, they don't fit.
    ensures none { IfOk result (λ ps. IfNone ps ((qs : List code_piece.Piece) → Fits parts.now (arg_types args.now) qs → ⊥)) }
{
    pieces(alloc, parts, args)
}
