//! Whether signatures tell the functions apart that a checked module declares.
//!
//! A module is linked by signatures, which its own functions and those of the module types that it names have by their types
//! (`link_sign`). `specs/Declared.antt` says which functions these are, and which texts they have; the three built-in prints are always
//! among them. `declared_clash` answers the first two different texts with one signature, where there are such, and none exactly where
//! all are told apart. `laws` has what holds: a module has one list of texts, and its functions clash or are told apart. The program
//! stands on it, and refuses a source whose functions clash.
//!
//! Read `clashing`, then `texts`, which makes the list.
#![tactic(auto)]

mod clashing;
mod laws;
mod texts;

pub use clashing::declared_clash;
pub use laws::{clash_or_apart, one_first_clash, one_list_of_texts};
