//! Blocks that the instructions of the Dis machine make, with exact counts.
//!
//! A block is made of its kind and its words, whose references its maker gives away for it, and a reference to it takes the place of one
//! that stands in memory (`store_new`); that one is let go behind it. A fault is found before anything is made, and changes nothing.
//! dis_stores has what is stored beside.
#![tactic(auto)]

mod arrays;
mod cells;
mod kinds;
mod making;
mod parts;

pub use arrays::{element_words, store_array};
pub use cells::store_cell;
pub use kinds::{store_record, store_text};
pub use making::store_new;
pub use parts::{store_channel, store_part};
