//! What holds of instructions on numbers, and of those of control.

ghost use Rattle.number_effects.specs.Giving.{ResultsGo};
ghost use Rattle.number_effects.specs.Reading.{OperandsAreRead};
ghost use Rattle.number_effects.specs.Numbers.{NumbersWork};
ghost use Rattle.number_effects.specs.Records.{WordsMove};
ghost use Rattle.number_effects.specs.Control.{ControlGoes};
ghost use Rattle.number_effects.specs.Frames.{FramesAreFound};
ghost use Rattle.number_effects.specs.Stepping.{StepsObey};

/// A result goes where the destination leads, unless the instruction raises what comes instead.
pub fn results_go()
    ensures { ResultsGo }
{}

/// A source and a middle are read as what stands where they lead, or as the immediates that they are.
pub fn operands_are_read()
    ensures { OperandsAreRead }
{}

/// Each operation on numbers gives what its row of the table says, and a branch goes where its comparison says.
pub fn numbers_work()
    ensures { NumbersWork }
{}

/// A word is moved, an address is stored, and a record is made.
pub fn words_move()
    ensures { WordsMove }
{}

/// Jumps, frames, calls and returns.
pub fn control_goes()
    ensures { ControlGoes }
{}

/// A frame is found by its serial, once it is made and once words are stored in it.
pub fn frames_are_found()
    ensures { FramesAreFound }
{}

/// A step of a process is what the instruction at its place does.
pub fn steps_obey()
    ensures { StepsObey }
{}
