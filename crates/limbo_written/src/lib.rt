//! Types that are written in bodies, as values may have them (Limbo Language Reference, types and scope).
//!
//! `specs/Written.antt` says which type of values a written type means, and why it means none, of trees without where they stand in a
//! source. The laws say that a written type means one such type at most, and that what fails means none. The checkers of expressions and
//! statements stand on it.
//!
//! Read `fault`, `written`, `laws`.
#![tactic(auto)]

mod fault;
mod laws;
mod written;

pub use laws::{fails_or_written, one_written};
pub use written::type_of_values;
