//! The context that a source gives is ready for the bodies of its functions (Limbo Language Reference, declarations, scope and modules).
//!
//! The laws join what holds of a source's context by the table of its declarations (`limbo_source_context`) and what is asked of a
//! context before functions are checked in it (`limbo_stated_sound`).
//!
//! Read `laws`.
#![tactic(auto)]

mod laws;

pub use laws::{
    constants_have_types, contexts_are_ready, imports_come_through, initials_are_sound,
    lists_are_named, names_are_known, numbers_are_there, sources_are_sound,
};
