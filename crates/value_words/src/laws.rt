//! What holds of words that stand for values.

ghost use Rattle.value_words.specs.Laws.{WordsStand, PartsStand, NamesStand};

/// Memory as it is made stands for zero; what words stand for is whole; the same bytes elsewhere, and the same words where more is known,
/// stand for the same.
pub fn words_stand()
    ensures { WordsStand }
{}

/// The parts of a value stand at their offsets, and the value with another part stands where that part's words do.
pub fn parts_stand()
    ensures { PartsStand }
{}

/// The words at the offsets of a type's references stand for the references of its value, in order; where one comes to refer to nothing,
/// the words stand for the value without it.
pub fn names_stand()
    ensures { NamesStand }
{}
