//! Functions, and all functions of a module (Limbo Language Reference, functions and modules).
//!
//! `check_function` gives the typed function that a definition is, as the function is declared; `check_functions` does so for all of a
//! module, one behind the other, and the checking goes on with what their bodies have declared. `limbo_stating` says by rules what a
//! function is, and why a definition is none (`specs/Functions.antt` there). Who makes a checked module stands on it.
//!
//! Read `faults`, `sameness`, `heading`, `beginning`, `answering`, `checking`, `all`.
#![tactic(auto)]

mod all;
mod answering;
mod beginning;
mod checking;
mod faults;
mod heading;
mod sameness;

pub use all::{FunctionFault, check_functions};
pub use checking::check_function;
pub use limbo_bodies;
pub use limbo_stmts;
