//! Tuples, lists, arrays and channels, as they are made of typed parts (Limbo Language Reference, expressions).
//!
//! `specs/Literals.antt` says which expression each literal is, and `specs/Refusing.antt` when there is none. The elements of a list or an
//! array have one type together, and each is what it is where that type is asked for; where all are open, the literal is open too. The
//! checker of expressions stands on it.
//!
//! Read `element`, `literal`, `laws`.
#![tactic(auto)]

mod element;
mod laws;
mod literal;

pub use laws::{literals_are_sound, one_literal};
pub use literal::{channel, filled_array, list, new_array, tuple};
