//! The forms of an expression whose parts are values (Limbo Language Reference, expressions).
//!
//! `specs/Forms.antt` lists for each form which of its parts are values, from the left to the right, and says which typed expression it is
//! with these, and why it is none. The crates below put typed parts together; the two functions here choose among them by the operator.
//! The checker of expressions stands on it.
//!
//! Read `giving`, `laws`.
#![tactic(auto)]

mod giving;
mod laws;

pub use giving::{before, give};
pub use laws::one_form;
pub use limbo_combining;
