//! What holds of every program.

ghost use Rattle.typed_meaning.specs.Replays.{ReplaysAreRuns};
ghost use Rattle.typed_meaning.specs.Heights.{Heights, NeverHigher, RunsStayLow};
ghost use Rattle.typed_meaning.specs.Requests.{RequestsAreSendable};
ghost use Rattle.typed_meaning.specs.Breaks.{EndsOnlySo};
ghost use Rattle.typed_meaning.specs.Endings.{EndsNameNothing};

/// Runs compute: what a replay of the rules tells, over quanta and replies, is told of a run.
pub fn replays_are_runs()
    ensures { ReplaysAreRuns }
{}

/// A call makes the stack of a process one frame higher and a return one lower, and no other step and no reply changes its
/// height.
pub fn heights()
    ensures { Heights }
{}

/// No step makes a process higher than the limit.
pub fn never_higher()
    ensures { NeverHigher }
{}

/// In every run of a module, no process ever has more than 10,000 frames.
pub fn runs_stay_low()
    ensures { RunsStayLow }
{}

/// Whatever a program prints, each request is no longer than a message may be.
pub fn requests_are_sendable()
    ensures { RequestsAreSendable }
{}

/// A process ends only as its first function returns, and breaks only where a call would be one frame more than there may be, or
/// where a number is divided by 0.
pub fn ends_only_so()
    ensures { EndsOnlySo }
{}

/// A process that ends is gone in that step, and names nothing.
pub fn ends_name_nothing()
    ensures { EndsNameNothing }
{}
