//! Objects as a machine with memory loads them: tables with all types and names that their instructions ask for, and each object with its
//! numbers in these.
//!
//! `load` makes both of a program's objects; `IsLoaded` of dis_code says what they are to each other. `types` and `names` have what one
//! object adds.
#![tactic(auto)]

mod loading;
mod names;
mod types;

pub use loading::{Loaded, load};
