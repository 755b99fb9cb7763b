//! That rows of calls go: the machine makes a frame and goes on in it. No code stands here, only definitions and laws.
//!
//! `specs/`: `Rows` (which calls these are).
#![tactic(auto)]

mod laws;

pub use laws::{boxed_calls_go, plain_calls_go, replies_go, sound_functions_begin};
