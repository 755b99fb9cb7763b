//! Operators on typed operands (Limbo Language Reference, expressions).
//!
//! Each function puts typed operands together by the rows of the table of operators, or refuses them. `specs/Combining.antt` says what
//! each gives, a case for each way; the checker of expressions stands on it.
//!
//! Read `between`, `before`, `laws`.
#![tactic(auto)]

mod before;
mod between;
mod laws;

pub use before::{operate, text_bytes};
pub use between::combine;
pub use laws::one_expression;
