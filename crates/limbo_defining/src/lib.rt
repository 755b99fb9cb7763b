//! Variables that `:=` declares (Limbo Language Reference, declarations).
//!
//! The left side of a `:=` is a name, or several in parentheses: names, more of these, and `nil`. It declares its names as variables of the
//! types of a value's parts, one after the other, and is a pattern for the value. `specs/Defining.antt` says so, and why it may fail;
//! `specs/Laws.antt` that both are exclusive. The checker of expressions stands on it.
//!
//! Read `variable`, `defining`, `laws`.
#![tactic(auto)]

mod defining;
mod laws;
mod variable;

pub use defining::define;
pub use laws::{fails_or_defines, one_definition};
