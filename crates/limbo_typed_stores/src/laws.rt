//! What holds of every node in a typed expression.

ghost use Rattle.limbo_typed_stores.specs.Stored.{IsAllowed, NeverHoldsItself, MakesNoRing};
ghost use Rattle.limbo_typed_stores.specs.Laws.{OfTyped, OfValues, OfThings, OfPatterns};

/// Every store in a typed expression is allowed, and in a value, a thing and a pattern.
pub fn stores_stand()
    ensures typed { OfTyped IsAllowed }
    ensures value { OfValues IsAllowed }
    ensures thing { OfThings IsAllowed }
    ensures pattern { OfPatterns IsAllowed }
{}

/// What a node of a typed expression stores never comes to hold the object into which it is stored.
pub fn nothing_holds_itself()
    ensures typed { OfTyped NeverHoldsItself }
    ensures value { OfValues NeverHoldsItself }
    ensures thing { OfThings NeverHoldsItself }
    ensures pattern { OfPatterns NeverHoldsItself }
{}

/// No store of a typed expression makes a ring of values on the heap.
pub fn no_rings_are_made()
    ensures typed { OfTyped MakesNoRing }
    ensures value { OfValues MakesNoRing }
    ensures thing { OfThings MakesNoRing }
    ensures pattern { OfPatterns MakesNoRing }
{}
