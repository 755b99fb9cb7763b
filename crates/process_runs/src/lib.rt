//! Runs of many processes, and not only their single steps, one behind another: a run of a middle code over one heap has a run of its
//! source beside it, and what follows that middle code follows the source. No code stands here, only definitions and laws.
//!
//! `process_model`'s `passes_compose` makes one pass of two by a relation of processes, and for that the machine's process has to tell
//! where the middle code's is. Where several instructions of the machine are one of the middle code (`process_ways`), it doesn't. Here
//! the runs are composed: a machine's journal is a run of the middle code, and that is a run of the source.
//!
//! `specs/` in the order of reading: `Pace` (how many steps of the middle code pass without one of the source), `Runs` (a run of the
//! source beside one of the middle code), `Composed` (two passes, by their runs).
//!
//! In `proofs/` what a compiler's proof takes is `Composed` (the law, for types of specs too) and `Beside` (the run of the source).
//! `Untold` is an example of two passes that compose by their runs and by no relation of processes; `Losing` shows a run that has none
//! of its source beside it, since something goes in it as a link is lost.
#![tactic(auto)]

mod laws;

pub use laws::{
    Composing, Sharing, journals_composed, openings_pair, paces_multiply, runs_are_calm,
    runs_follow,
};
