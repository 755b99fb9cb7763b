//! What holds of journals of a machine with the object of a module over values.

ghost use Rattle.value_sim.specs.Meaning.{ModulesMean, SuitingMean};

/// Every journal of a machine with the object of a module that suits is a run of the module, from where both begin alike: the same is told,
/// also of what goes from the heap, and at a pace.
pub fn suiting_mean()
    ensures { SuitingMean }
{}

/// There is a machine of the object of a module that suits, which gets the program's words; and each of its journals is a run of the module
/// from its first function on, with the same told.
pub fn modules_mean()
    ensures { ModulesMean }
{}
