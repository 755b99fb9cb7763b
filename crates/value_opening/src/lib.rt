//! What stands in the data of a module's instance when a machine of its object begins. No code stands here, only definitions and laws.
//!
//! `specs/` in the order of reading: `Puts` (what an item puts), `Putting` (what items change, and what stands there then), `Opening`
//! (the items of a module's object, and what is asked of the module), `Laws` (what the machine begins with in the module's data).
#![tactic(auto)]

mod laws;

pub use laws::{data_suit, items_put, puts_change, words_made};
