//! Counts in every state of a machine with memory, and what its instructions leave alone.

ghost use Rattle.dis_counts.specs.Alike.{BeginsAlike};
ghost use Rattle.dis_counts.specs.Counts.{OpeningCounts, EventsKeepCounts, CountsStayExact};
ghost use Rattle.dis_counts.specs.Ends.{EndsLetGo};
ghost use Rattle.dis_counts.specs.Going.{EachGoesOnce, LastReferencesRelease};
ghost use Rattle.dis_counts.specs.Reach.{NothingElseIsReached, OnlyReachedCounts};
ghost use Rattle.dis_counts.specs.References.{NoReferenceIsForged};

/// Where the machine of numbers begins, this one begins with the same process and the same blocks, of which those go that nothing
/// names.
pub fn begins_alike()
    ensures { BeginsAlike }
{}

/// As a machine begins, a block is there exactly where its count isn't 0.
pub fn opening_counts()
    ensures { OpeningCounts }
{}

/// Instructions of any process keep it so, and each event of a journal does: a quantum, a reply, a lost link.
pub fn events_keep_counts()
    ensures { EventsKeepCounts }
{}

/// In every state that a run comes to, a block is there exactly where its count isn't 0.
pub fn counts_stay_exact()
    ensures { CountsStayExact }
{}

/// A block goes with the last reference to it: that it went is told by the instruction behind which its count is 0, and by no other.
pub fn last_references_release()
    ensures { LastReferencesRelease }
{}

/// In a run a block is told to go once, and never while it is there.
pub fn each_goes_once()
    ensures { EachGoesOnce }
{}

/// A process that ends, breaks or faults lets go of all that it names: each block that is there behind that instruction is named by another
/// process or by a block.
pub fn ends_let_go()
    ensures { EndsLetGo }
{}

/// An instruction makes no reference but of one that its process holds, in a frame or in a block that it reaches, and of the block that it
/// makes: none of a number, and none of an address.
pub fn no_reference_is_forged()
    ensures { NoReferenceIsForged }
{}

/// Nor does it make an address but of a byte that its process reaches: what a process reaches afterwards, it reached before, or it made it.
pub fn nothing_else_is_reached()
    ensures { NothingElseIsReached }
{}

/// However many instructions a process goes through, each block that it didn't reach before them stays as it was, with its count, by them
/// and by what goes behind them.
pub fn only_reached_counts()
    ensures { OnlyReachedCounts }
{}
