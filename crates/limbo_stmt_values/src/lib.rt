//! The expressions in statements (Limbo Language Reference, statements).
//!
//! An expression that is evaluated for what it does, a condition, the value of a `case`, a spawned call, an answer: each is typed as any
//! expression is, and then asked for what its statement asks. `limbo_stating` says by rules what that is, and why there is none. The
//! checker of statements stands on it.
//!
//! Read `fault`, `endings`, `expressions`, `labels`, `loops`, `picks`.
#![tactic(auto)]

mod endings;
mod expressions;
mod fault;
mod labels;
mod loops;
mod picks;

pub use expressions::{choose, evaluate, returned, spawned, test};
pub use fault::{StmtFault, Why, part_fault};
pub use labels::{case_pattern, label};
pub use limbo_exprs;
pub use limbo_stating;
pub use loops::{may_evaluate, may_test};
pub use picks::{Picked, pick_value};
