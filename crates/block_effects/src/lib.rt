//! What the machine's instructions on strings, arrays and lists come to. No code stands here, only definitions and laws.
//!
//! `specs/` in the order of reading: `Stored` (what operands read, where results go, and what memory is then), `Contents` (to which blocks
//! references lead, by what is known of blocks), `Copying` (words and bytes that instructions take, put and move), `Strings`, `Arrays`,
//! `Lists` (what the instructions come to, one equation for each case).
#![tactic(auto)]

mod laws;

pub use laws::{
    Blocks, arrays_come, blocks_are_such, bytes_are_copied, lists_are_counted, lists_come,
    operands_read, references_lead, stores_behind, strings_come, words_are_copied,
};
