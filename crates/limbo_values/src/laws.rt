//! What holds of the operators and conversions.

ghost use Rattle.limbo_values.specs.Laws.{Wraps, StaysInRange, DivisionGivesBack, RemainderHasSign, ShiftMultiplies, CountsAreReduced, ConversionsKeep, ReadsBack, TextsAreOrdered};

/// A number in range is what is left of it, and what is left of any number is in range.
pub fn wraps()
    ensures { Wraps }
{}

/// What operators give of numbers of a kind is a number of the kind.
pub fn stays_in_range()
    ensures { StaysInRange }
{}

/// A quotient times the divisor, and the remainder, give the dividend back.
pub fn division_gives_back()
    ensures { DivisionGivesBack }
{}

/// A remainder has the sign of the dividend.
pub fn remainder_has_sign()
    ensures { RemainderHasSign }
{}

/// A shift to the left by less than the width is a multiplication by a power of two.
pub fn shift_multiplies()
    ensures { ShiftMultiplies }
{}

/// The width more in a count changes nothing, and what is left of a count is below the width.
pub fn counts_are_reduced()
    ensures { CountsAreReduced }
{}

/// A conversion by way of a wider kind is the conversion, so each keeps what fits.
pub fn conversions_keep()
    ensures { ConversionsKeep }
{}

/// The text of a number, read as a number of its kind, is the number.
pub fn reads_back()
    ensures { ReadsBack }
{}

/// Strings are in a total order, in which those are equal that have the same characters.
pub fn texts_are_ordered()
    ensures { TextsAreOrdered }
{}
