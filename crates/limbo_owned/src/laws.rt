//! What holds of every run.

ghost use Rattle.limbo_owned.specs.Owned.{RunsOwn};

/// In each configuration that a run of a module comes to, each process holds what its trees name, in the frame that runs and in those
/// that wait: as it begins, and behind each step of any process and each reply.
pub fn runs_own()
    ensures { RunsOwn }
{}
