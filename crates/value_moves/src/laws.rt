//! What holds of moves.

ghost use Rattle.value_moves.specs.Spots.{SpotsLead};
ghost use Rattle.value_moves.specs.Writing.{ValuesMove};
ghost use Rattle.value_moves.specs.Changing.{WordsChange};

/// An operand leads to the frame, to the module's data, to a record, an array or another frame, and what is stored there goes there.
pub fn spots_lead()
    ensures { SpotsLead }
{}

/// One instruction moves a value, which then stands where it was written, and all others stand as they stood.
pub fn values_move()
    ensures { ValuesMove }
{}

/// A word or a number is stored where one of its kind stands, and nothing else changes.
pub fn words_change()
    ensures { WordsChange }
{}
