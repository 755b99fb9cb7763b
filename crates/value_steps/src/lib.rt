//! That the machine follows three-address code over values where the row of each instruction goes. No code stands here, only definitions
//! and a law.
//!
//! `specs/`: `Steps` (what rows that lead come to).
#![tactic(auto)]

mod laws;

pub use laws::rows_follow;
