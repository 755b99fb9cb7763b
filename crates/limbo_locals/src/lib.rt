//! Declarations in bodies (Limbo Language Reference, declarations and scope).
//!
//! `declare_variables` and `define_names` give the statement that a declaration of variables is where a body has come to; the body has then
//! what is declared. `limbo_local` says by rules what that is, and why there is none. Names are declared in the innermost scope, all behind
//! the type and the value that the declaration writes.
//!
//! Read `names`, `values`, `variables`, `constants`, `types`, `imports`, `exceptions`.
#![tactic(auto)]

mod constants;
mod exceptions;
mod imports;
mod names;
mod types;
mod values;
mod variables;

pub use constants::{add_constants, declare_constants};
pub use exceptions::declare_exceptions;
pub use imports::declare_imports;
pub use names::{Lead, declare_names};
pub use types::{add_types, declare_types};
pub use values::nothing_runs;
pub use variables::{declare_variables, define_names};
