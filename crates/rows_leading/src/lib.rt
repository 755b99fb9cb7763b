//! That the row of each instruction leads on, in each module that suits: the rows of all instructions together. No code stands here, only
//! definitions and laws.
//!
//! `specs/`: `Leading` (what is asked of a module, and what it comes to).
#![tactic(auto)]

mod laws;

pub use laws::{suiting_follow, suiting_lead};
