//! What rows of three-address code over values are built on.

ghost use Rattle.value_bases.specs.Bases.{BasesHold};

/// Two processes stand for one another while others step, at the begin of an instruction and on their way through it, and hold the same;
/// and the object has the code of each instruction.
pub fn bases_hold()
    ensures { BasesHold }
{}
