//! What is kept.

ghost use Rattle.limbo_kept.specs.Modules.{ModulesKeepTypes};
ghost use Rattle.limbo_kept.specs.Operating.{OperationsKeepTypes};
ghost use Rattle.limbo_kept.specs.Places.{PlacesKeepTypes};
ghost use Rattle.limbo_kept.specs.Processes.{TypesAreKept};
ghost use Rattle.limbo_kept.specs.Stepping.{TreesKeepTypes};

/// Of operands that fit the types which an operation takes, it leaves a value that fits the type which it gives, and a heap that is as a
/// store says, which has grown by at most what is new.
pub fn operations_keep_types()
    ensures { OperationsKeepTypes }
{}

/// What is read at a place of a type fits it; and what is written to one, and fits it, leaves variables of the types that are declared
/// and a heap that is as the store says.
pub fn places_keep_types()
    ensures { PlacesKeepTypes }
{}

/// A tree that gives a value which fits a type does so behind each of its steps: what it comes to fits, and what is left of it is so again,
/// with a memory as a store says, which has grown; a function that it calls gets values that fit what it takes.
pub fn trees_keep_types()
    ensures { TreesKeepTypes }
{}

/// From a well-typed configuration each step of any process leads to a well-typed one, each reply does, and so each run: variables are of
/// the types that are declared, what stands in the heap is what the store says of its name, and what is in evaluation gives what is asked
/// for. The store only grows.
pub fn types_are_kept()
    ensures { TypesAreKept }
{}

/// The program of each sound module is well-typed, where its adts have layouts, the texts that are written in it are of characters, and it
/// stores only what may be stored; a run of it begins well-typed with words of characters, and each configuration that the run comes to is
/// well-typed. So the types of all trees of a run say what they may still store: anything, as each module does, or only what never comes to
/// hold the object into which it is stored.
pub fn modules_keep_types()
    ensures { ModulesKeepTypes }
{}
