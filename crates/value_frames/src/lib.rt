//! Frames of the machine as they stand for frames of three-address code over values. No code stands here, only definitions and laws.
//!
//! `specs/` in the order of reading: `Frames` (where things stand in a frame), `Types` (types that are made for them), `Standing` (when
//! a frame stands for one of three-address code), and laws: `Beginning` (a frame as it is made), `Slots` (where its words change), `Later`
//! (where the heap changes), `Rest` (what a slot has, and where it refers idly), `Replacing` (words of a type, where others take their
//! places).
#![tactic(auto)]

mod laws;

pub use laws::{frames_begin, frames_later, kinds_stay, slots_change, slots_rest};
