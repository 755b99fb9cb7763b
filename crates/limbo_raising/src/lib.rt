//! What is raised (Limbo Language Reference, exceptions): a string, or a declared exception with its values.
//!
//! `limbo_stating` says by rules what a `raise` is, and why it is none. The checker of statements stands on it.
//!
//! Read `exceptions`, `raising`.
#![tactic(auto)]

mod exceptions;
mod raising;

pub use raising::raise;
