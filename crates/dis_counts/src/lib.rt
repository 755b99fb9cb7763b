//! The machine with memory as a whole: what it begins with, that in every state of a run a block is there exactly where its count isn't
//! 0, and what a process reaches and leaves alone. No code stands here, only definitions and laws.
//!
//! `specs/` in the order of reading: `Opening` (what a machine of an object begins with), `Alike` (that the machine of numbers begins
//! alike), `Counts` (when counts are exact, and that they are), `Going` (when a block goes, and that it is told once), `Ends` (what is
//! there once a process has ended), `References` (where references come from), `Reach` (what a process reaches, and what it leaves alone),
//! `Told` (what is told beside which blocks went).
//!
//! Nothing is counted as a machine goes on: behind each step what stays is the greatest part that is named from outside or by itself, in
//! one place for all languages. That nothing else stays than what has a count that isn't 0 is what the laws say: what stays is named, and
//! what is named stays, since no reference comes to name what isn't there. Rings are no exception: they name themselves.
//!
//! In `proofs/` the cut of any heap is `Cut`, and what many processes do over one is `Many`, for any language whose steps leave no
//! reference that names nothing. `Named` joins counts to references, `Replies` and `Loaded` say what replies and items of the data leave,
//! and `Exact` puts these together. `Storing` goes through the instructions once, for each sort of words that a process may store; of
//! words that refer to what it holds it is `Forging`, of words that lead to what it reaches `Leading`. `Unreached` says what is left
//! alone, cut and all, `Going` what is told of what goes, `Ending` what an end leaves, and `Beginning` how the two machines begin.
#![tactic(auto)]

mod laws;

pub use laws::{
    begins_alike, counts_stay_exact, each_goes_once, ends_let_go, events_keep_counts,
    last_references_release, no_reference_is_forged, nothing_else_is_reached, only_reached_counts,
    opening_counts,
};
