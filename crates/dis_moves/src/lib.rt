//! Instructions of the Dis machine that move many words at once.
//!
//! A value of a type goes with its references (`values`), from a place or from the element of a list's first cell (`elements`). So many
//! bytes of plain words go as they are where they are whole words; of others each byte goes, in the words that it touches (`moves`,
//! `bytes`), or in words of their own (`blanks`). All faults are found before anything is changed; dis_copies has how words go over others.
#![tactic(auto)]

mod blanks;
mod bytes;
mod elements;
mod givings;
mod moves;
mod values;

pub use givings::finish_words;
pub use moves::{consm, headm, move_to, movm};
pub use values::{consmp, headmp, movmp};
