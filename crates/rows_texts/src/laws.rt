//! What holds of rows of strings.

ghost use Rattle.rows_texts.specs.Rows.{JoinsGo, LengthsGo, CharactersGo, ReadingsGo};
ghost use Rattle.rows_texts.specs.Rows.{NumberTextsGo, SlicesGo, TextComparesGo, BytesTextsGo};
ghost use Rattle.rows_texts.specs.Rows.{TextBytesGo};

/// One string behind another comes into a slot, or both processes end as broken.
pub fn joins_go()
    ensures { JoinsGo }
{}

/// So does the length of a string.
pub fn lengths_go()
    ensures { LengthsGo }
{}

/// So does a character of a string, or both processes end as broken.
pub fn characters_go()
    ensures { CharactersGo }
{}

/// So does the byte or the int that a string begins with.
pub fn readings_go()
    ensures { ReadingsGo }
{}

/// A byte or an int comes into a slot as a string.
pub fn number_texts_go()
    ensures { NumberTextsGo }
{}

/// Part of a string comes into a slot, or both processes end as broken.
pub fn slices_go()
    ensures { SlicesGo }
{}

/// So does how two strings compare.
pub fn text_compares_go()
    ensures { TextComparesGo }
{}

/// Bytes of an array come into a slot as a string, where they are no more than strings have characters.
pub fn bytes_texts_go()
    ensures { BytesTextsGo }
{}

/// The bytes of a string come into a slot as a new array.
pub fn text_bytes_go()
    ensures { TextBytesGo }
{}
