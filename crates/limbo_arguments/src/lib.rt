//! Values where types are asked for, or the refusal where they don't stand there (Limbo Language Reference, expressions).
//!
//! `specs/Failing.antt` says of which value a refusal tells: the first that doesn't stand, beside the type that is asked of it. Literals
//! and calls stand on it.
//!
//! Read `argument`, `laws`.
#![tactic(auto)]

mod argument;
mod laws;

pub use argument::{expr_of, settle_all, settle_each, settle_or_clash};
pub use laws::{failing_values, one_settled};
