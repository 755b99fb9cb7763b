//! An imported name's number leads to what it is imported as.

ghost use Rattle.limbo_imports.specs.Laws.{ImportOfNumber};

/// The import of the number that a declaration means is what it imports.
pub fn import_of_a_number()
    ensures { ImportOfNumber }
{}
