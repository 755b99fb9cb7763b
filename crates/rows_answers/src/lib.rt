//! That rows of connectives, of loops that begin, and of returns with answers that refer or have a box go. No code stands here, only laws.
//!
//! `specs/`: `Rows` (which these are).
#![tactic(auto)]

mod laws;

pub use laws::{box_returns, reference_returns, skips_go, starts_go, zero_returns};
