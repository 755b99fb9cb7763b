//! What a value stands for where a type is asked for, and the one type of a literal's elements (Limbo Language Reference,
//! expressions).
//!
//! While an expression is typed, a `nil` of which nothing says yet what it stands for is open, and tuples, lists and arrays carry that
//! upward: `specs/Standing.antt` says what such a value is where a type is asked for, and `specs/Joining.antt` which type elements have
//! together. The table of operators and the checker of expressions stand on it.
//!
//! Read `joining`, `standing`, `laws`.
#![tactic(auto)]

mod joining;
mod laws;
mod standing;

pub use joining::{element_type, item_type, join, or_nil};
pub use laws::{one_type, settled_values};
pub use standing::settle;
