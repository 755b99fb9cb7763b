//! The checker of statements (Limbo Language Reference, statements).
//!
//! `state` gives the typed statement that a statement is, where the checking of a body has come to; `limbo_stating` says by rules which
//! that is, and why there is none. Statements are gone through as they are written: each sees what those before it declare. The parts of a
//! statement that hold no statements are typed by the crates below.
//!
//! Read `point`, `faults`, `making`; `plain`, `choices`, `loops`, `branches`, `arms`, `blocks`, `statements`.
#![tactic(auto)]

mod arms;
mod blocks;
mod branches;
mod choices;
mod faults;
mod loops;
mod making;
mod plain;
mod point;
mod statements;

pub use blocks::block;
pub use limbo_heads;
pub use limbo_interfaces::limbo_members;
pub use point::Point;
pub use statements::{state, state_all};
