//! Blocks of the machine as they stand for values of the source's heap. No code stands here, only definitions and laws.
//!
//! `specs/` in the order of reading: `Types` (the machine's type by which values lie), `Blocks` (when a block stands for a value, of the
//! form that is known of it), `Laws` (what the law of two heaps asks of that), `Contents` (as that law takes them), `Made` (new memory
//! stands for zero). In `proofs/`, `Formed` reads a block by its form.
#![tactic(auto)]

mod laws;

pub use laws::{blocks_stand, contents_are, made_blank};
