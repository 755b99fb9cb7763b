//! The heap of the Dis machine: blocks with exact counts of the references to them.
//!
//! A contract sees a `Heap` as a `Store` (`specs/Store.antt`): the number of blocks made, a finite map from serials to
//! live blocks, and the numbers that the last drop lost. Where a block lies is no part of it: a block lies in a slot that
//! is used again, and a serial never is. What a drop leaves is the greatest settled part of the heap
//! (`specs/Drops.antt`). Words and what a block holds are in `specs/Words.antt`, refusals in `specs/Answers.antt`.
//!
//! `get`, `set_word`, `hold` and the making of a small block take constant time where the `Ref` is one that the heap
//! gave and its block is live: the slot is looked up by its key. A `Ref` whose block is gone is looked for in each slot.
//! A drop takes time by the words of what goes; it takes no memory and doesn't recur, since the count of a block that
//! goes holds the key of the next such block.
//!
//! Read `word`, `words`, `kind`, then `heap`; `slots` and `freeing` are inside.
#![tactic(auto)]

mod freeing;
mod heap;
mod kind;
pub mod laws;
mod slots;
mod word;
mod words;

pub use heap::Heap;
pub use kind::{Freed, HeapFault, Kind};
pub use word::{Place, Ref, Word};
pub use words::Words;
