//! What holds of heaps without rings.

ghost use Rattle.limbo_rings.specs.Rings.{NoRingsNoneLost};
ghost use Rattle.limbo_rings.specs.Storing.{NewMakesNoRing, WritesMakeNoRing, CopiesMakeNoRing, FillsMakeNoRing};
ghost use Rattle.limbo_rings.specs.Storing.{CutsMakeNoRing, OpeningsHaveNoRing};
ghost use Rattle.limbo_rings.specs.Permitting.{AllowedIsAllowed, WhatDoesNotCloseIsAllowed};
ghost use Rattle.limbo_rings.specs.Running.{SoundModulesMakeNoRing};
ghost use Rattle.limbo_rings.specs.Stepping.{StepsDo, StepsMakeNoRing};

/// Where no value of a heap names itself, what stays of it is reached from what names it from outside.
pub fn no_rings_none_lost<A>()
    ensures { NoRingsNoneLost A }
{}

/// A new value of the heap makes no ring.
pub fn new_makes_no_ring()
    ensures { NewMakesNoRing }
{}

/// A write makes no ring where the type of its place doesn't reach that of the object in which the place lies.
pub fn writes_make_no_ring()
    ensures { WritesMakeNoRing }
{}

/// A copy into an array makes no ring where the elements' type doesn't reach the array's.
pub fn copies_make_no_ring()
    ensures { CopiesMakeNoRing }
{}

/// A write to an element of an array that no value names makes no ring where the value doesn't name the array.
pub fn fills_make_no_ring()
    ensures { FillsMakeNoRing }
{}

/// What stays of a heap without rings has none.
pub fn cuts_make_no_ring()
    ensures { CutsMakeNoRing }
{}

/// A run begins without rings.
pub fn openings_have_no_ring()
    ensures { OpeningsHaveNoRing }
{}

/// Where the checker finds that nothing which is stored at a place can close a ring, each write there is allowed.
pub fn allowed_is_allowed()
    ensures { AllowedIsAllowed }
{}

/// A step of a well-typed tree leaves the heap as it was, adds a value, writes at a place of its type, fills an element of an array, or
/// copies elements of an array's type into it.
pub fn steps_do()
    ensures { StepsDo }
{}

/// A node whose stores close no ring, as the checker asks of each, stores only what may be stored where nothing is to lead back.
pub fn what_does_not_close_is_allowed()
    ensures { WhatDoesNotCloseIsAllowed }
{}

/// A step of a well-typed tree makes no ring, where only what never leads back may be stored, and the tree is apart from what it fills.
pub fn steps_make_no_ring()
    ensures { StepsMakeNoRing }
{}

/// No run of a sound module whose stores never lead back makes a ring: in each of its configurations no value of the heap names itself, and
/// what stays of the heap is reached from the processes.
pub fn sound_modules_make_no_ring()
    ensures { SoundModulesMakeNoRing }
{}
