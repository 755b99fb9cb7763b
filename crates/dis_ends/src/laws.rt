//! How far a machine stays from the ends of its counts.

ghost use Rattle.dis_ends.specs.Ends.{MachinesStayFar};

/// A machine of objects as files can hold them, with at most 10,000,000 quanta, has fewer blocks than a number of 64 bits can count, and
/// fewer references to each of them, with room for what an instruction holds on its way.
pub fn machines_stay_far()
    ensures { MachinesStayFar }
{}
