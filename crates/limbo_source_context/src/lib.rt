//! What is known in the bodies of a source's functions (Limbo Language Reference, declarations, scope and modules).
//!
//! The context of a source has, for each kind of name, the list of what is told of the declarations of that kind, and
//! `specs/SourceContext.antt` says so field by field, and why a source has none. `specs/Laws.antt` says that a source has one at most, and
//! that what is refused has none. With the context stand the scopes in which a body begins, the types with which each declaration is
//! declared, and the constants with which the variables of the module begin. The lists are those of `limbo_outline`,
//! `limbo_outline_members`, `limbo_imports` and `limbo_source_adts`.
//!
//! Read `fault`, `source`, `laws`; within, `known`, `outer`, `inner`, `plain`, `beginning`, `fitting`.
#![tactic(auto)]

mod beginning;
mod fault;
mod fitting;
mod inner;
mod known;
mod laws;
mod outer;
mod plain;
mod source;

pub use fault::ContextFault;
pub use laws::{fails_or_context, one_beginnings, one_context};
pub use source::{SourceContext, source_context};
