//! Which types are meant that are written in a function's body (Limbo Language Reference, types and scope).
//!
//! A type is written with names, which mean what they do where the body has come to. `specs/Means.antt` says which type of `limbo_types`
//! a written type means there, by a rule for each form; `specs/Fails.antt` by which of its names it fails, and why. What stands before
//! `->` or `.` may be a variable too, and leads to its type. The checkers of expressions and statements stand on it.
//!
//! Read `fault`, `meant`, `found`, `written`, `laws`.
#![tactic(auto)]

mod fault;
mod found;
mod laws;
mod meant;
mod written;

pub use fault::WrittenFault;
pub use laws::{fails_or_means, one_type};
pub use meant::module_led;
pub use written::type_in;
