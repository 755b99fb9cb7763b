//! Heaps of named values, cut to what is named, and when a machine's heap stands for a source's. No code stands here, only
//! definitions and laws.
//!
//! A heap is a list of places, each used once. In the source its values are arrays, cells, records and channels, named by their
//! places; in a machine they are blocks of words. Nothing is counted: what stays is the greatest part each of whose values is named
//! from outside or by the part, and what goes is the rest. That is one definition for both sides, and process_model's one cut
//! applies it. What a block stands for is said by facts that never change, in a map that only grows; so the words of a frame are
//! read by the map, without a heap. Of what values and blocks are, only what `Contents` lists is ever asked; so this serves every
//! pair of languages. What processes share beside the heap, the outside, may have more in the machine, as a count of its frames.
//!
//! `specs/` in the order of reading: `Kept` (what stays, by references alone), `Heap` (the list, and what stays of it, computed),
//! `Facts` (what blocks stand for, and of which form they are), `Alike` (heaps alike by their references, and what is held of both),
//! `Contents` (what two languages say of values and blocks), `Worlds` (heaps alike, contents and all; what a step may change), `Quiet`
//! (steps that let nothing go), `Joined` (both as two sides of process_model), `Laws`.
//!
//! In `proofs/` what a compiler's proof takes is `Changes` (a value and its block change, a free block changes or comes),
//! `Growing` (a block comes to stand for something; what others leave a process adds up), `Building` (maps with one fact more),
//! `Made` (strings, parts of arrays, carriers), `Quiet` and `Joined`. `Values` and `Makers` are an example with values of any types,
//! under the law, and `Orders` has a run of it in which two processes name blocks in another order than they made them.
#![tactic(auto)]

mod laws;

pub use laws::{TwoHeaps, heaps_join, quiet_steps, what_stays};
