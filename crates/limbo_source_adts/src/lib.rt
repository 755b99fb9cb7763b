//! The adts that a source declares (Limbo Language Reference, adts), as `limbo_layout` has them.
//!
//! `specs/Definitions.antt` says what the definition of an adt is: its fields are the variables that stand inside it, in order, each with
//! the type that is told of it (`limbo_headers`); its variants are those that stand inside it, each with the fields inside the variant.
//! An adt's place in the list is the number by which types name it (`limbo_type_names`).
//!
//! `specs/Modules.antt` has the module types, which are numbered in the same way. `source_adts` gives both as `limbo_adts` has them:
//! that each number in a type names something is proved of what types mean.
//!
//! Read `inside`, `definitions`, `adts`.
#![tactic(auto)]

mod adts;
mod definitions;
mod inside;

pub use adts::source_adts;
pub use definitions::define_adts;
