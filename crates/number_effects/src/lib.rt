//! What the machine's instructions on numbers come to, and those of control. No code stands here, only definitions and laws.
//!
//! `specs/` in the order of reading: `Giving` (where results go), `Reading` (what operands are read as), `Numbers` (operations on numbers,
//! and branches), `Records` (words that are moved, addresses, new records), `Control` (jumps, frames, calls, returns), `Frames` (how
//! frames are found), `Stepping` (one step of a process).
#![tactic(auto)]

mod laws;

pub use laws::{
    control_goes, frames_are_found, numbers_work, operands_are_read, results_go, steps_obey,
    words_move,
};
