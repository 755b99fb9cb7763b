//! Of which types the values are that three-address code finds in its slots, and that no slot gets a value while it still names something.
//! No code stands here, only definitions and laws.
//!
//! `specs/` in the order of reading: `Held` (what is known of slots: types, which references may name something, and what is put together),
//! `Needs` (of which types an instruction finds what it reads, and which slots name nothing), `Written` (which type the code in front of a
//! place tells of a slot's value), `Going` (where code goes on, and that it goes well), `Trees` (the form of trees that aren't begun),
//! `Runs` (what three-address code asks of trees and modules beside their types), `Functions` (that the code of typed trees, of typed
//! functions and of sound modules goes well).
#![tactic(auto)]

mod laws;

pub use laws::{functions_go_well, sound_modules_go_well, trees_go_well, values_go_well};
