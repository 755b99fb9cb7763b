//! Types are kept: what a program of a sound module has in its variables and in the heap is of the types that its declarations say. No
//! code stands here, only definitions and laws.
//!
//! `specs/` in the order of reading: `Values` (when a value is of a type, in a store that says what each name of the heap stands for),
//! `Stores` (when a heap and a memory are as a store says), `Operating` (what operations leave), `Places` (what is read and written),
//! `Permitting` (what may be stored where: anything, or only what never leads back), `Trees` (when a tree in evaluation gives a value of a
//! type, and stores what may be stored), `Stepping` (what a step in a tree leaves), `Processes` (when a process and a configuration of many
//! are well-typed), `Nodes` (what holds of each node of a typed tree), `Storing` (that a module stores what may be stored), `Modules` (that
//! runs of sound modules are well-typed).
//!
//! In `proofs/`, `Fitted` has values that are brought to their types, `Texts` texts of characters, `Heaps` heaps that grow and change,
//! `Making` adts' values, `Operating` the operations one by one, `Placing` places, `Carrying` trees where a store has grown and where an
//! answer comes, `Evaluating` the steps of trees, `Processes` those of processes, `Modules`
//! the trees of sound modules, `Storing` that each module stores what may be stored where anything may, and `Opening` how a run begins;
//! `Examples` has a module that meets all that is asked, and a store that leads back.
#![tactic(auto)]

mod laws;

pub use laws::{
    modules_keep_types, operations_keep_types, places_keep_types, trees_keep_types, types_are_kept,
};
