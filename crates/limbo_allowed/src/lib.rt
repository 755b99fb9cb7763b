//! Which types values may have (Limbo Language Reference, types; Sys).
//!
//! A type takes at most 65,536 bytes; a value of a user's module stands in variables alone, so that such a type stands in no other; and
//! the adt `FD` of `Sys` is opaque, so that no type holds it but behind a `ref`. `specs/Allowed.antt` says so, and which refusal holds
//! where a type isn't allowed. The checker asks it of each type of a source and of each expression's type.
//!
//! Read `holding`, `allowing`, `laws`.
#![tactic(auto)]

mod allowing;
mod holding;
mod laws;

pub use allowing::{allow, is_named, is_user_module};
pub use laws::refused_or_allowed;
