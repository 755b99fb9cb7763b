//! Instructions of the Dis machine that make a record, an array, part of an array or a channel.
//!
//! A destination is looked at before anything is raised, then the block is made and a reference to it stored, and the process comes to its
//! next instruction (`giving`). An array's and a channel's type of elements is a number in memory's tables, which have the types of each
//! object that is loaded (`types`). `records`, `arrays` and `channels` have the instructions by their names. dis_blocks has how blocks are
//! made, dis_results what instructions give that make none.
#![tactic(auto)]

mod arrays;
mod channels;
mod giving;
mod records;
mod types;

pub use arrays::{newa, slicea};
pub use channels::{Carried, newc, newcm, newcmp};
pub use giving::{give_array, give_channel, give_part, give_record, go_on};
pub use records::new;
