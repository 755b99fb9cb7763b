//! What is known where a function's body is checked (Limbo Language Reference, scope and modules).
//!
//! `Context` has the lists that names lead to, and `Body` the scopes and variables of a function's body so far. A name means a kind and
//! a number in the list of its kind, whether a source's top level declares it or a block. `specs/Context.antt` has the same without how
//! it lies in memory, and what a member of a module or an adt means; the checkers of types, expressions and statements stand on it.
//!
//! Read `context`, `body`, `looking`.
#![tactic(auto)]

mod body;
mod context;
mod looking;

pub use body::{Body, BodyFault};
pub use context::{Callee, Context, Imported, Origin, Valued};
