//! What holds of rows that copy elements of arrays.

ghost use Rattle.rows_copying.specs.Rows.{CopyIntosGo};

/// The elements of an array go over as many others of one, from an index on, or both processes end as broken.
pub fn copies_go()
    ensures { CopyIntosGo }
{}
