//! Names that declarations write and that aren't there (Limbo Language Reference, scope).
//!
//! A declaration writes the names of its types, the name that it imports, and the names that its constant expression or its initial
//! value asks for: `specs/Written.antt` lists them. Each is there where it is found in the declaration's scope, and behind `->` and `.`
//! in the module or adt before it. What an exception clause of a function names isn't asked for.
//!
//! Read `names`, `types`, `exprs`, `known`.
#![tactic(auto)]

mod exprs;
mod known;
mod names;
mod types;

pub use known::{UnknownFault, all_known};
