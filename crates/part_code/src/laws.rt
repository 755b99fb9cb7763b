//! What holds of every module of the part.

ghost use Rattle.part_code.specs.Laws.{PartIsProper, FramesFit, InstructionsHeld, ArgumentsFew};

/// The code of a module of the part is proper.
pub fn part_is_proper()
    ensures proper { PartIsProper }
{}

/// The frame of a function of the part is no larger than its variables and the nodes of its largest statement ask for.
pub fn frames_fit()
    ensures fits { FramesFit }
{}

/// The machine can hold each instruction of a module of the part, and its arguments have less than a third of a frame.
pub fn part_is_held()
    ensures held { InstructionsHeld }
    ensures few { ArgumentsFew }
{}
