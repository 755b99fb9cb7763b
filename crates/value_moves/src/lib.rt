//! What the machine's moves do to words, and where operands lead. No code stands here, only definitions and laws.
//!
//! `specs/` in the order of reading: `Operands` (the instructions that move a value), `Spots` (to which words an operand leads),
//! `Writing` (what is written among words, and what a value's move writes), `Changing` (single words and numbers).
#![tactic(auto)]

mod laws;

pub use laws::{spots_lead, values_move, words_change};
