//! Assignments with an operator on typed operands (Limbo Language Reference, expressions).
//!
//! `update` puts a place and a value together by the row that the table of operators has for them. `specs/Updating.antt` says what that
//! is; the checker of expressions stands on it.
//!
//! Read `updating`, `laws`.
#![tactic(auto)]

mod laws;
mod updating;

pub use laws::one_update;
pub use updating::update;
