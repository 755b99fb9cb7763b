//! How far a machine stays from the ends of its counts.

ghost use Rattle.dis_limits.specs.Limits.{BlocksStayFew, LimitsStayFar};

/// A run makes a block for the module's data, at most one for each of their items, and at most one by each instruction.
pub fn blocks_stay_few()
    ensures { BlocksStayFew }
{}

/// A run of at most 2^35 instructions, of objects as files of fewer than 2^32 bytes can hold them, has fewer blocks than a number of 64
/// bits can count, and fewer references to each of them, with room for what an instruction holds on its way.
pub fn limits_stay_far()
    ensures { LimitsStayFar }
{}
