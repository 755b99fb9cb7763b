//! What the names that a source declares mean in the bodies of its functions (Limbo Language Reference, scope and modules).
//!
//! A name means a kind and a number (`limbo_scope`): the place of its declaration among those of its kind, in the order of the table of
//! all declarations (`limbo_entries`). `specs/Kinds.antt` says which kind a declaration has, `specs/Meanings.antt` which number, and
//! `specs/Names.antt` which scope the names that stand inside a declaration make.
//!
//! Read `kind`, `kinds`, `meanings`, `scopes`, `laws`.
#![tactic(auto)]

mod kind;
mod kinds;
mod laws;
mod meanings;
mod scopes;

pub use kind::Kind;
pub use kinds::{is_of_kind, kind_of};
pub use laws::{names_of_a_scope, names_of_the_top_level};
pub use meanings::find_meanings;
pub use scopes::{inner_scopes, top_scopes};
