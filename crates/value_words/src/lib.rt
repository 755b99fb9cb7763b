//! Values of the source as they stand in words of the machine. No code stands here, only definitions and laws.
//!
//! `specs/` in the order of reading: `Forms` (how the block of a value of the heap is laid out), `Facts` (what references stand for),
//! `Stands` (when words from a byte on stand for a value of a type), `Contents` (bytes, memory as it is made, where references lie in a
//! value), `Laws` (what holds of them).
#![tactic(auto)]

mod laws;

pub use laws::{names_stand, parts_stand, words_stand};
