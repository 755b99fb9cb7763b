//! Which typed trees expressions are where the body of a function has come to (Limbo Language Reference, expressions).
//!
//! The crates below put typed parts together. `specs/Typing.antt` says which typed tree an expression is, by a rule for each form, and
//! `specs/Failing.antt` why it is none, by a rule for each part that fails and for each way in which parts don't fit. The laws say that an
//! expression is one typed tree at most, and that what fails is none. The checkers of expressions and of
//! statements stand on these definitions.
//!
//! Read `laws`.
#![tactic(auto)]

mod laws;

pub use laws::{fails_or_types, one_typed};
pub use limbo_applying;
pub use limbo_value_forms;
pub use limbo_value_forms::limbo_combining;
