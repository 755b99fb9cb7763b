//! Many processes: what one process does in a step is an `Effect`, and all that is said of many is said once, for every
//! language whose processes are given so. No code stands here, only definitions and laws.
//!
//! A source language and a machine are each given by `Rules` and by a `Naming` of its heap: what each process names, what stays, and
//! what goes. In both, what nobody names goes at the end of each step, in one place, and is told; no rule speaks of it. In the source
//! any two processes that fit may meet; the machine's choice is fixed, and its state is the replay of its journal. `Follows` says
//! what one process of the machine owes to one of the source: it speaks of no other process, and only of what stands before
//! anything goes. From it the law follows, `every_journal`: whatever journal the machine keeps is a run of the source, with the same
//! trace, through a map of names that only grows, and at the pace. A compiler proves `Follows`, and has the rest from here.
//!
//! `specs/` in the order of reading: `Process` (one process, and what is told), `Naming` (a heap that is named), `Source` (many of a
//! source: steps and runs), `Choice` and `Machine` (many of a machine: events and replay), `Renaming` (numbers on both sides), `Alone`
//! (quiet steps of one process), `Follows` (what it owes, and what holds of two heaps), `Law` (the law of all), `Laws` (of every step
//! of a source, and of machines), `Living` (how many are not over), `Once` (a value that passes is received once, by one branch),
//! `Plain` (languages without a heap, which owe less), `Shared` (two languages over one heap), `Passes` (two passes, one after the
//! other).
//!
//! In `proofs/` what a compiler's proof takes is `Journals` (the law, for types of specs too), `Quiet` (quiet steps, and bursts of
//! them), `NoHeap` and `Lifted` (`no_heap`, `plain_follows`, `plain_journals`), `Itself` (a machine as its own source), `Passes` and
//! `Unshared` (`passes_compose`, `plain_shared`), `Steady`, `Waiters`, `Living` and `Once` (the laws of steps and of machines). The examples
//! meet the premises, and their replays compute: `Example` has a tiny language without a heap, two of whose instructions may stand
//! for one step; in `Cells`, `CellsHeld` and `CellsFollow` a machine numbers cells otherwise than the source, and has a box beside
//! them that stands for nothing; `Slowly` and `CellsSlowly` put a pass in front of it.
#![tactic(auto)]

mod laws;

pub use laws::{
    Chaining, Joining, every_journal, journals_take_once, number_holds, others_stay,
    partner_waited, passes_compose, passes_keep_journals, runs_take_once, trace_grows,
    waiters_kept,
};
