//! Where the bodies of a source's functions begin (Limbo Language Reference, functions and scope).
//!
//! `specs/Bodies.antt` says in which scopes and with which variables a body begins: its parameters stand in a scope of their own, which
//! stands in the scopes of the source. `specs/Definitions.antt` says which function a definition defines, and that it takes and answers
//! what the function is declared with.
//!
//! Read `parameters`, `beginning`; `fault`, `sameness`, `declared`, `defining`.
#![tactic(auto)]

mod beginning;
mod declared;
mod defining;
mod fault;
mod parameters;
mod sameness;

pub use beginning::begin_body;
pub use declared::function_of;
pub use defining::{Defined, head_definition};
pub use fault::DefinitionFault;
