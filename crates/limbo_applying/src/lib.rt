//! What stands before `(` with what is passed to it (Limbo Language Reference, expressions).
//!
//! A function, a method, a function of a module's type, an adt and a variant are applied to arguments: `specs/Applying.antt` says which
//! expression each is then, and `specs/Refusing.antt` why there is none. `limbo_things` says what the name before `(` is, and
//! `limbo_calls` makes the calls. The checker of expressions stands on it.
//!
//! Read `applying`, `laws`.
#![tactic(auto)]

mod applying;
mod laws;

pub use applying::apply;
pub use laws::one_applied;
