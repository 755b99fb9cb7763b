//! What holds of parts that are written.

ghost use Rattle.value_stores.specs.Paths.{PartsLie};
ghost use Rattle.value_stores.specs.Places.{PlacesChange};
ghost use Rattle.value_stores.specs.Stores.{AllBlocksChange};

/// A part of a value lies within it, and where it is written, the value has another one in its place.
pub fn parts_lie()
    ensures { PartsLie }
{}

/// A block stands for the value with another part where that is written, be it an array, a record or the module's instance.
pub fn blocks_change()
    ensures { AllBlocksChange }
{}

/// A place is read and written where its root is, and where there is none, the exception is raised that says so.
pub fn places_change()
    ensures { PlacesChange }
{}
