//! Assignments to places and to tuples of them (Limbo Language Reference, expressions).
//!
//! A value goes where a pattern says: into a place, nowhere, or its parts each their own way. `specs/Assigning.antt` says what is asked of
//! the value, and what an assignment gives; the checkers of expressions and statements stand on it.
//!
//! Read `asking`, `assigning`, `laws`.
#![tactic(auto)]

mod asking;
mod assigning;
mod laws;

pub use asking::takes;
pub use assigning::{assign, copy_into};
pub use laws::one_expression;
