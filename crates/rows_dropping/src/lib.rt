//! That rows go which drop references of a slot's value, and which take a part out of it. No code stands here, only definitions and laws.
//!
//! `specs/`: `Rows` (which these are).
#![tactic(auto)]

mod laws;

pub use laws::{drops_go, picks_go};
