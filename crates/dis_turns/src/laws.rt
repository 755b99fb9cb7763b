//! What holds of every step and every reply.

ghost use Rattle.dis_turns.specs.Given.{KeepsGiven};
ghost use Rattle.dis_turns.specs.Replies.{RepliesObey};
ghost use Rattle.dis_turns.specs.Turns.{StepsObey};

/// A step of the one process of a machine is its next turn, and each block's count stays what the process and the blocks name.
pub fn steps_obey()
    ensures { StepsObey }
{}

/// A reply to the one process of a machine is the machine's event, and one that is refused isn't allowed. Counts stay exact.
pub fn replies_obey()
    ensures { RepliesObey }
{}

/// Each frame has a serial that the machine gave, and so it is behind each step and each reply.
pub fn keeps_given()
    ensures { KeepsGiven }
{}
