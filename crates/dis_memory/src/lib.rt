//! What one instruction of the Dis machine does with memory: blocks with kinds, strings, arrays, lists, records and references, as
//! definitions. No code stands here. The machine of numbers is `dis_meaning`'s: what the compiler's code does is said over it first.
//!
//! `specs/` in the order of reading: `Blocks`, `Raising`, `Places` (the words that operands name), `Kinds` (what references lead to),
//! `Process`, `Results`, `Operands`, `Copies`; the families of instructions, `Data`, `Arrays`, `Strings`, `Lists`, `Numbers`, `Formats` and
//! `Control`; `Step` (one instruction), `Naming` (which blocks are named, and how often), `Rules`; `Laws` and `Sound` (what holds of every
//! instruction).
//!
//! An instruction lets no block go: what nobody names goes behind the step, by `process_model`, in one place for all languages.
#![tactic(auto)]

mod laws;

pub use laws::{
    breaks_change_nothing, faults_change_nothing, nothing_comes_to_dangle, nothing_goes_within,
    only_reached_changes,
};
