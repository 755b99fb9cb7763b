//! Rings of values of the heap: no run makes one. No code stands here, only definitions and laws.
//!
//! `specs/` in the order of reading: `Rings` (when a value names itself, and what stays of a heap where none does), `Storing` (the new
//! values, writes and copies that make no ring, and that a run begins with none), `Permitting` (that what the checker allows to be stored
//! is allowed), `Stepping` (what one step of a well-typed tree does to the memory, and that it makes no ring), `Running` (that no run of a
//! sound module whose stores never lead back makes one, so that what stays of the heap is what is reached).
//!
//! In `proofs/`, `Graphs` has the one lemma on references, `Finite` what stays of a heap without rings, `Known` what a value of a type
//! names, `Changing` heaps that grow or change, `Writing` places and copies, `Running` cuts and how a run begins, `Runs` the way from each
//! step of a tree to whole runs; `Examples` has a store that is refused, the ring that it would make, and a module that makes none.
#![tactic(auto)]

mod laws;

pub use laws::{
    allowed_is_allowed, copies_make_no_ring, cuts_make_no_ring, fills_make_no_ring,
    new_makes_no_ring, no_rings_none_lost, openings_have_no_ring, sound_modules_make_no_ring,
    steps_do, steps_make_no_ring, what_does_not_close_is_allowed, writes_make_no_ring,
};
