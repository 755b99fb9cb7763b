//! What each process of a run holds: in every configuration of a run of a module, whatever steps its processes made and whatever replies
//! came, a process holds what its trees name. No code stands here, only a definition and a law.
//!
//! `specs/Owned` says the law, by `Owning` of `limbo_meaning`; `proofs/Owned` takes it from each step to whole runs.
#![tactic(auto)]

mod laws;

pub use laws::runs_own;
