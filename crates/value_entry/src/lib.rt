//! That both sides stand alike where a machine of a module's object begins. No code stands here, only definitions and laws.
//!
//! `specs/` in the order of reading: `Opening` (what a machine begins with that gets words), `Entry` (that it stands for three-address code
//! of the module where that begins).
//!
//! In `proofs/` `Way` goes through the entry's two instructions and `Places` says how far the process is at their end; `Listed` has the
//! blocks that the machine begins with one by one, `Worlds` what they stand for, `Frames` what the first frame does, `Source` that nothing
//! is there that the module doesn't name; `Opening` goes through the cut, and `Entry` puts these together.
#![tactic(auto)]

mod laws;

pub use laws::{entries_lead, entries_lead_without, lists_without_words};
