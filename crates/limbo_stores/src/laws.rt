//! What holds of stores that aren't refused.

ghost use Rattle.limbo_stores.specs.Laws.{StoresNeverClose, CopiesNeverClose, SendsNeverClose, StoresMakeNoRing};
ghost use Rattle.limbo_stores.specs.Laws.{PlacesLieInHolders, PartsLieIn};

/// What is stored into a place that can't close never comes to hold the object that holds the place.
pub fn stores_never_close()
    ensures { StoresNeverClose }
{}

/// What is copied into an array, where that isn't refused, never comes to hold the array.
pub fn copies_never_close()
    ensures { CopiesNeverClose }
{}

/// What is sent on a channel, where that isn't refused, never comes to hold the channel.
pub fn sends_never_close()
    ensures { SendsNeverClose }
{}

/// A store into a part whose type doesn't reach the object's makes no ring, and where the part lies in the object the heap stays typed.
pub fn stores_make_no_ring()
    ensures { StoresMakeNoRing }
{}

/// A place of a checked module lies in the object that holds it: what may be stored there, the object may name.
pub fn places_lie_in_holders()
    ensures { PlacesLieInHolders }
{}

/// An element lies in its array, and what was sent in its channel.
pub fn parts_lie_in()
    ensures { PartsLieIn }
{}
