//! The meaning of Limbo programs: what a checked module does, one step after another. No code stands here, only definitions and
//! laws.
//!
//! A process evaluates its trees in small steps, each at the leftmost part that is ready. What the processes share is the `World`:
//! the outside, and the variables of the modules. What a process does in a step is an effect of process_model, which says all that
//! there is to say of many processes, of their runs and of what is told; so a compiler's proof speaks of one process. So far
//! programs have functions over bytes, ints and bigs, variables of the module, and prints; what isn't in this part has no rule. That
//! no process comes to it is a law of `part_going`.
//!
//! `specs/` in the order of reading: `Values` (what operations give), `Formats` (the text that is printed), `Trees` (what is left
//! to do), `World` (what is shared), `Evaluation` (one step in an expression), `Program` (the trees of a checked module), `Process`
//! (frames), `Step` (one step of a process), `Rules` (the steps as a language of process_model), `Runs` (a run of a module).
//! `Replays`, `Heights`, `Requests`, `Breaks` and `Endings` say the laws.
//!
//! In `proofs/`, `Examples` has steps and whole programs, all of which compute. `Kept` serves any language of process_model: what
//! each effect of a process keeps, each run keeps.
#![tactic(auto)]

mod laws;

pub use laws::{
    ends_name_nothing, ends_only_so, heights, never_higher, replays_are_runs,
    requests_are_sendable, runs_stay_low,
};
