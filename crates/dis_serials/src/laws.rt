//! What holds of the serials of frames.

ghost use Rattle.dis_serials.specs.Given.{SerialsAreGiven};

/// Each frame of a process has a serial that the machine gave, and so it is after each instruction and each reply.
pub fn serials_are_given()
    ensures { SerialsAreGiven }
{}
