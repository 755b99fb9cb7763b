//! Parts of values where they lie in memory, and what blocks stand for once part of them is written. No code stands here, only definitions
//! and laws.
//!
//! `specs/` in the order of reading: `Paths` (numbers that lead to a part of a value, and where it lies), `Stores` (what a block stands for
//! once part of it is written, and what lies in it), `Places` (what a read and a write come to in the source's memory, root by root).
#![tactic(auto)]

mod laws;

pub use laws::{blocks_change, parts_lie, places_change};
