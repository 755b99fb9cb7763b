//! What holds of rows that make values.

ghost use Rattle.rows_making.specs.Rows.{SameConvertsGo, RefsGo, BoxConsesGo, BoxCellsGo, NoItemsGo};

/// A byte or an int that is asked for as one of its own kind comes into a slot as it is.
pub fn same_converts_go()
    ensures { SameConvertsGo }
{}

/// A new record has the value of a slot, and a reference to it comes into another slot.
pub fn refs_go()
    ensures { RefsGo }
{}

/// A list with an item more in front comes into a slot, where the item has a record of its own.
pub fn box_conses_go()
    ensures { BoxConsesGo }
{}

/// So does a cell of a list that is written.
pub fn box_cells_go()
    ensures { BoxCellsGo }
{}

/// The list without items comes into a slot, where an operation gives it.
pub fn no_items_go()
    ensures { NoItemsGo }
{}
