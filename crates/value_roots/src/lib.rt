//! When words of a process of the machine hold what the process of the source names. No code stands here, only definitions and laws.
//!
//! `specs/` in the order of reading: `Accounts` (when words are accounted for, and lead to what is named), `Laws` (that such words hold
//! what is named, and stay accounted for while what they reach stays, also behind steps of other processes and cuts; and that a process
//! comes to name only what is there).
#![tactic(auto)]

mod laws;

pub use laws::{BesideBlocks, accounts_hold, left_accounted, still_there};
