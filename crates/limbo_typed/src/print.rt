use inf_text::Text;
use limbo_values::Kind;

/// The built-in functions of `Sys` that take a format.
#[derive(Clone, Copy)]
pub enum Printed {
    /// `print`, on the standard output.
    Print,
    /// `fprint`, on a file.
    Fprint,
    /// `sprint`, which gives the text.
    Sprint,
}

/// What stands in a printed text for a `%` and what follows it.
#[derive(Clone, Copy)]
pub enum Hole {
    /// `%d` of an int or a byte, `%bd` of a big.
    Decimal(Kind),
    /// `%s`
    Chars,
    /// `%c`
    Character,
    /// `%x`
    Hexadecimal,
    /// `%r`: the text of the last error, without an argument.
    Error,
}

/// A part of a format.
#[derive(Drop)]
pub enum Piece {
    /// Characters that stand for themselves; `%%` is the character `%` here.
    Chars(Text),
    /// What an argument, or the last error, stands in for.
    Hole(Hole),
}
