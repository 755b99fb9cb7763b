//! The top level of a source: which names it has, and whether what must be defined is defined (Limbo Language Reference, modules and
//! scope).
//!
//! The declarations and definitions of a source and of the texts that it includes stand in one row (`limbo_includes`). `specs/Tops.antt`
//! says which names they give the top level: those that are declared there, the members of the implemented module, and the functions
//! that are defined and that the module doesn't declare.
//!
//! Read `tops`, `module`, `naming`.
#![tactic(auto)]

mod fault;
mod module;
mod naming;
mod tops;

pub use fault::TopFault;
pub use module::{alone, implemented};
pub use naming::{TopLevel, top_level};
pub use tops::{Definition, declared, definitions};
