//! Serials of frames in the Dis machine with memory: each frame has one that the machine gave, whatever instructions and replies do.
//!
//! `specs/Given` says it; no code stands here. dis_memory has the instructions. Code that makes frames stands on it, since a new serial is
//! then no frame's.
#![tactic(auto)]

mod laws;

pub use laws::serials_are_given;
