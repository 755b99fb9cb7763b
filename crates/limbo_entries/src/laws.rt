//! What holds of tables.

ghost use Rattle.limbo_entries.specs.Laws.{OneFound, WithinIsLess, AllAreThere, OneTable, OnceIsNotTwice};

/// Where each scope declares each name once, a name is one declaration.
pub fn one_found()
    ensures { OneFound }
{}

/// What stands inside another has the greater number.
pub fn within_is_less()
    ensures { WithinIsLess }
{}

/// Each declaration at the top level or inside one that is there has a number.
pub fn all_are_there()
    ensures { AllAreThere }
{}

/// A top level has one table at most.
pub fn one_table()
    ensures { OneTable }
{}

/// Where each scope of a table declares each name once, no scope has a name twice.
pub fn once_is_not_twice()
    ensures { OnceIsNotTwice }
{}
