//! What holds of every run of a module of the part.

ghost use Rattle.part_going.specs.Going.{AlwaysGoing};
ghost use Rattle.part_going.specs.Fitting.{ArgumentsFit, OperandsFit};

/// In every run of a module of the part, no process is ever without a rule for its next step.
pub fn always_going()
    ensures { AlwaysGoing }
{}

/// In every run of a module of the part, an operation is only ever applied to numbers of the kinds that it takes.
pub fn operands_fit()
    ensures { OperandsFit }
{}

/// In every run of a module of the part, a function is only ever called with as many numbers as it has parameters, each of its
/// parameter's kind.
pub fn arguments_fit()
    ensures { ArgumentsFit }
{}
