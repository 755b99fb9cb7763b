//! The meaning of Limbo programs over values: strings, tuples, adts, arrays, lists and references. No code stands here, only
//! definitions and laws. The compiler's passes don't stand on it yet: they keep `typed_meaning`, whose programs have numbers alone.
//!
//! A process evaluates its trees in small steps, each at the leftmost part that is ready. What it reads and writes is the memory of
//! the frame that runs: its variables, those of its module's instance, and the heap, which all processes share. Each reference that a
//! step gets is held until the statement ends, and then they go one by one; so what a process names is what its variables, what its
//! frames hold and their instances name, and no tree has to be looked at. What nobody names goes in the one place where
//! process_model cuts the heap.
//!
//! `specs/` in the order of reading: `Values`, `Memory` (the heap), `Exceptions` (the texts that are raised), `Bytes` (bytes as
//! strings), `Places` (what is read and written), `Operations` (what operations give), `Formats` (the text that is printed), `Trees`
//! (what is left to do), `Evaluation` (one step in an expression), `Program` (the trees of a checked module), `Process` (frames, and
//! what they name), `Step` (one step of a process), `Rules` (the steps as a language of process_model), `Runs` (a run of a module).
//! `Alone`, `Opening`, `Holding`, `Naming`, `Order`, `Kinds`, `Origins`, `Owning` and `Endings` say the laws.
//!
//! In `proofs/`, `Examples` and `Temporaries` have whole programs, all of which compute, to what they print and what of the heap
//! goes. `Steps` has the kinds of steps of a process, and `Touching` what a step in an expression does to the memory: what holds of
//! all steps is shown once for each of these.
#![tactic(auto)]

mod laws;

pub use laws::{
    ends_let_go, held_in_order, kinds_are_static, left_to_right, names_come_from, names_used_once,
    only_writes_change, opening_is_still, processes_own, runs_compute,
};
