//! What the instructions of the Dis machine store, with exact counts.
//!
//! A word of a frame or of a block is replaced by another of its kind (`put`), and given back. A reference that is stored is held before,
//! and the one that stood there is let go behind it; blocks that nothing names then are gone (`store_plain`, `store_reference`). A fault is
//! found before anything is held, and changes nothing. dis_places has the words that operands name.
#![tactic(auto)]

mod exchanges;
mod puts;
mod stores;

pub use puts::put;
pub use stores::{hold, store_plain, store_reference};
