//! Why an expression, wherever it stands, has no typed tree (Limbo Language Reference, expressions and scope).
//!
//! `limbo_refusals` says why typed parts don't fit; beside that a name may be unknown or declared twice, and an index not constant.
//! `specs/Causes.antt` has the same causes without how types lie in memory. The checkers of expressions and statements answer them.
//!
//! Read `fault`.
#![tactic(auto)]

mod fault;

pub use fault::{Cause, TypingFault};
