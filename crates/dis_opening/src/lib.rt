//! What a machine with memory begins with, on counted blocks and with exact counts.
//!
//! `open` makes the instance of an object's module, puts the items of the object's data into it, and makes the first process at the
//! object's entry: dis_counts' definition of the opening. Items are put in one after another, over words whose references are held until
//! the last item is in, so that nothing goes before; then these are let go, in one cut. Counts are exact from then on. `specs/Starting`
//! says what a refusal means.
//!
//! In the order of reading: `fault` (why a machine can't begin), `loading` (where items go), `numbers` (bytes as numbers), `puts` (words
//! and numbers that are put in), `making` (strings and arrays), `entering` (elements of arrays), `items`, and `opening`.
#![tactic(auto)]

mod entering;
mod fault;
mod items;
mod loading;
mod making;
mod numbers;
mod opening;
mod puts;

pub use fault::StartFault;
pub use opening::{Opened, open};
