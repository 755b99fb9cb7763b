//! Expressions that are places, or parts of values: elements, slices, targets, parts and steps (Limbo Language Reference, expressions).
//!
//! An expression is a place where it reads one. `specs/Elements.antt`, `Slices`, `Targets` and `Steps` say which expressions
//! `base[index]`, `base[from:to]`, `*reference`, `base.name`, `ref value`, `++place` and their like are, given their parts with their
//! types. Each call here puts such parts together, or says why there is no such expression. The checker of expressions stands on it.
//!
//! Read `element`, `slicing`, `target`, `reference`, `stepping`, `laws`.
#![tactic(auto)]

mod building;
mod element;
mod laws;
mod reference;
mod slicing;
mod stepping;
mod target;

pub use element::index;
pub use laws::{
    one_index, one_part, one_reference, one_slice, one_step, one_target, sound_elements,
    sound_references, sound_steps,
};
pub use reference::refer;
pub use slicing::slice;
pub use stepping::step;
pub use target::{dereference, select};
