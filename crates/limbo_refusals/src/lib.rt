//! Why an expression is refused, whatever it is (Limbo Language Reference, expressions).
//!
//! The checker of expressions puts typed parts together, and each way of doing so answers a typed expression or one of these faults.
//! `specs/Refusals.antt` has the same refusals without how types lie in memory; the place in the source is the caller's to tell.
//!
//! Read `fault`.
#![tactic(auto)]

mod fault;

pub use fault::{Clash, ExprFault, clash_of};
