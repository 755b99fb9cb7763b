//! Which types the names of a source mean (Limbo Language Reference, types and declarations).
//!
//! A type is written with names: of adts, of modules, of what is declared by `type`, and of what is imported. `specs/Means.antt` says which
//! type of `limbo_types` a written type means in a scope, as the least relation by a rule for each form, and which type a declaration
//! stands for. Adts, modules and the variants of an adt stand in types by their numbers (`specs/Numbers.antt`). A type fails by one of its
//! names (`specs/Writes.antt`); one that is declared by `type` in a circle stands for nothing.
//!
//! The type of each declaration is found once, in an order (`limbo_order`), behind those that it needs; so the work is that of the source,
//! and nothing recurses from declaration to declaration.
//!
//! Read `fault`, `counted`, `numbers`, `known`, `meaning`, `needs`, `standing`, `names`, `laws`.
#![tactic(auto)]

mod counted;
mod fault;
mod known;
mod laws;
mod meaning;
mod names;
mod needs;
mod numbers;
mod standing;

pub use fault::{TypeFault, TypesFault};
pub use laws::{
    by_type_stands, circles_stand_for_nothing, fails_or_means, no_type_stands_for_none, one_type,
};
pub use names::TypeNames;
