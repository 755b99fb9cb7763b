//! What holds of the definitions.

ghost use Rattle.limbo_written.specs.Laws.{OneWritten, FailsOrWritten};

/// A written type means at most one type that values may have.
pub fn one_written()
    ensures { OneWritten }
{}

/// What fails, by whatever cause, means no type that values may have.
pub fn fails_or_written()
    ensures { FailsOrWritten }
{}
