//! What holds of the data that a machine begins with.

ghost use Rattle.value_opening.specs.Putting.{PutsChange};
ghost use Rattle.value_opening.specs.Laws.{WordsMade, DataSuit, ItemsPut};

/// Words as they are made refer to nothing at the offsets of their type, and are zero elsewhere.
pub fn words_made()
    ensures { WordsMade }
{}

/// An item that the data take is put, where it stands then, and nothing else changes; and so are many, in turn.
pub fn puts_change()
    ensures { PutsChange }
{}

/// The data of a sound module's code are of the ranges of their numbers, and of types that have layouts.
pub fn data_suit()
    ensures { DataSuit }
{}

/// All items of a module's object are put, and then its instance stands for the module's, with all constants of its code.
pub fn items_put()
    ensures { ItemsPut }
{}
