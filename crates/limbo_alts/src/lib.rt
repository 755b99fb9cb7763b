//! The heads of an `alt`'s arms (Limbo Language Reference, alt statement).
//!
//! An arm is written as a send or as a receive, alone or to the right of `=` or `:=`, and typed as any expression; what it waits for is
//! then read off its typed tree. `limbo_stating` says by rules what a head is, and why it is none. The checker of statements stands on
//! it.
//!
//! Read `written`, `waiting`, `heads`.
#![tactic(auto)]

mod heads;
mod waiting;
mod written;

pub use heads::alt_head;
