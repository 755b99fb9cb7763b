//! That no machine's journal leads to the ends of the heap's counts. No code stands here, only definitions and a law.
//!
//! `specs/` has one page, `Ends`.
//!
//! In `proofs/` `Quanta` says that a journal's translation has at most 2,048 instructions for each of its quanta, `Far` that so many are
//! too few to come near the ends.
#![tactic(auto)]

mod laws;

pub use laws::machines_stay_far;
