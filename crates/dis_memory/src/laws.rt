//! What holds of every instruction.

ghost use Rattle.dis_memory.specs.Laws.{FaultsChangeNothing, BreaksChangeNothing, NothingGoesWithin, OnlyReachedChanges};
ghost use Rattle.dis_memory.specs.Sound.{NothingComesToDangle};

/// An instruction that is wrong changes nothing: the process ends with the fault and the place of the instruction, and what all share
/// is as it was.
pub fn faults_change_nothing()
    ensures { FaultsChangeNothing }
{}

/// So does an instruction that raises, or is one call too many, and breaks its process.
pub fn breaks_change_nothing()
    ensures { BreaksChangeNothing }
{}

/// No instruction lets a block go, and none gives a serial that was given before.
pub fn nothing_goes_within()
    ensures { NothingGoesWithin }
{}

/// A process changes what its own words reach, from its frames and their instances on, by references and addresses: every other block
/// is as it was.
pub fn only_reached_changes()
    ensures { OnlyReachedChanges }
{}

/// No reference comes to name a block that isn't there: where none does, none does after an instruction.
pub fn nothing_comes_to_dangle()
    ensures { NothingComesToDangle }
{}
