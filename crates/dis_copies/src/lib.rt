//! Words that the instructions of the Dis machine copy, many at once, with exact counts.
//!
//! All that could be wrong is looked for before anything is changed: each word has to meet one of its kind. Then the references of the new
//! words are held (`hold_words`), the words put in place of others, and all references that stood there are let go in one step
//! (`store_words`). dis_stores has what is stored word by word.
#![tactic(auto)]

mod blocks;
mod frames;
mod holds;
mod places;
mod rows;
mod stores;

pub use holds::hold_words;
pub use stores::{store_plain_words, store_words};
