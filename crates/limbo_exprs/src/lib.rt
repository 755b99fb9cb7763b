//! The typed trees of expressions (Limbo Language Reference, expressions).
//!
//! `check` gives the typed tree that an expression is where the body of a function has come to, and `value` that of one that has a value;
//! `limbo_typing` says by rules which tree that is, and why there is none. The parts of an expression are typed from the left to the
//! right, `:=` declares as it goes, and the crates below put the typed parts together. The checker of statements stands on it.
//!
//! Read `shapes`, `endings`, `naming`, `valuing`, `forms`, `arrays`, `calling`, `targets`, `assigning`.
#![tactic(auto)]

mod arrays;
mod assigning;
mod calling;
mod endings;
mod forms;
mod naming;
mod shapes;
mod targets;
mod valuing;

pub use assigning::pattern;
pub use naming::denote;
pub use valuing::{check, maybe, value, values};
