//! What holds of the definitions.

ghost use Rattle.limbo_formats.specs.Formats.{OneFormat, PiecesAsk};

/// A text is a format of one list of parts at most.
pub fn one_format()
    ensures { OneFormat }
{}

/// Arguments that fit a format have the types that its pieces ask for, once an open `nil` is a string.
pub fn pieces_ask()
    ensures { PiecesAsk }
{}
