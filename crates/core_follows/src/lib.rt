//! The code of a program keeps its meaning: what the three-address code of `core_code` does is what the program does, by the definitions
//! of `limbo_meaning`. No code stands here, only definitions and two laws.
//!
//! `specs/` in the order of reading: `Drops` (what the drops at a statement's end let go, read off the slots), `Handled` (the trees that
//! the law speaks of), `Does` (what the code does from a place on where nothing of a statement is begun), `Stands` (when a frame of the
//! code stands for one of the program, in the midst of whatever), `Follows` (the law), `Modules` (that it holds of checked modules).
//!
//! In `proofs/`, `Slots`, `Drops`, `Holding` and `Static` have what slots name and drops touch, `Placing` slots in which some operands have
//! moved to what is put together, and `Moves`, `Gathers`, `Picks` what slots name after parts have moved into a value or out of it;
//! `Begins` has with which instructions code begins; `Contexts`, `Nodes`, `Given`, `Works`, `Terms`, `Filling` and `Expressions` are
//! expressions, `Dropped` the drops of a statement, `Valued`, `Blocks` and `Statements` statements, `Follows` processes, and `Fitting`,
//! `Updates` and `Modules` the trees of checked modules, of which `Examples` has one that meets all that is asked.
#![tactic(auto)]

mod laws;

pub use laws::{checked_modules_keep, core_code_keeps};
