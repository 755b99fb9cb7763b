//! What names are in expressions, and what stands behind `->` and `.` (Limbo Language Reference, expressions, modules and adts).
//!
//! A name may be a value, a type, a variant, a function, a print or an exception. `specs/Things.antt` says which of these a name is where a
//! body has come to, and which `base->name` and `base.name` are, given the base. Each call here makes one such step, or says that there
//! is nothing. The checker of expressions stands on it.
//!
//! Read `thing`, `naming`, `members`, `parts`, `laws`.
#![tactic(auto)]

mod laws;
mod members;
mod naming;
mod parts;
mod thing;

pub use laws::one_thing;
pub use members::member;
pub use naming::name;
pub use parts::part;
pub use thing::{NameFault, Thing, value};
