//! That rows of calls with operands go: these come to the parameters of the frame that is made. No code stands here, only definitions and
//! laws.
//!
//! `specs/`: `Rows` (which calls these are).
#![tactic(auto)]

mod laws;

pub use laws::{arguments_go, boxed_arguments_go, sound_parameters_first};
