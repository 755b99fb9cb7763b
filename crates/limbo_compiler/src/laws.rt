//! What holds of every object that the compiler makes, and of its runs.

ghost use Rattle.limbo_compiler.specs.Limits.{ObjectsValid};
ghost use Rattle.limbo_compiler.specs.Means.{JournalsMean, NoneFault, CountsExact};

/// Wherever a machine's journal leads, there is a run of the module of which the same was told.
pub fn journals_mean()
    ensures { JournalsMean }
{}

/// No journal of a machine of a module's object tells of a wrong instruction.
pub fn none_fault()
    ensures { NoneFault }
{}

/// Wherever a machine's journal leads, a block of memory is there exactly where its count isn't 0.
pub fn counts_exact()
    ensures { CountsExact }
{}

/// The object of a module that isn't too large is a valid object file: some bytes spell it.
pub fn objects_valid()
    ensures { ObjectsValid }
{}
