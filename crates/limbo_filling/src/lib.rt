//! Arrays that initialisers fill: until one is full nothing names it but the tree that fills it. No code stands here, only definitions and
//! laws.
//!
//! `specs/` in the order of reading: `Filling` (which arrays a tree fills, and when they are apart), `Laws` (how each step of a tree keeps
//! that), `Processes` (the same of a process with its frames).
#![tactic(auto)]

mod laws;

pub use laws::{fills_stay_apart, processes_stay_apart};
