//! That rows of returns go: the process ends, or goes on in the frame that waits. No code stands here, only definitions and laws.
//!
//! `specs/`: `Endings` (which returns these are).
#![tactic(auto)]

mod laws;

pub use laws::{ends_go, nil_returns, nothing_returns, number_returns};
