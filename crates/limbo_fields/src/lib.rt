//! Parts of values by their names (Limbo Language Reference, adts and tuples).
//!
//! `specs/Fields.antt` says which part of a value a name is: a field of an adt, of the variant that is known first, or the place of a
//! tuple's part, as `t0`. `part_of` gives it, by its number among the parts as they lie in memory, with its type.
//!
//! Read `field`, `place`, `part`, `laws`.
#![tactic(auto)]

mod field;
mod laws;
mod part;
mod place;

pub use laws::{one_part, parts_are_there};
pub use part::{Part, part_of};
