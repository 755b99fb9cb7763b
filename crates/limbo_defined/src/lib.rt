//! Whether the functions of a source are defined as they are declared (Limbo Language Reference, modules and adts).
//!
//! A function that the implemented module or an adt of the top level declares must be defined, once, and an adt's function that is
//! defined must be declared by the adt (`specs/Defined.antt`). A function of an adt that stands in an adt has no name that a
//! definition could have. A refusal says where the function's name stands (`specs/Refusals.antt`, `Places.antt`).
//!
//! Functions are found by labels (`specs/Labels.antt`), one text for a function's name or for its adt's name and its own.
//!
//! Read `checks`, `wants`, `inner`; `label` and `sets` are the ground under them.
#![tactic(auto)]

mod checks;
mod fault;
mod inner;
mod label;
mod sets;
mod wants;

pub use checks::all_defined;
pub use fault::DefinedFault;
