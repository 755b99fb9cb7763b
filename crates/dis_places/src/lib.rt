//! Memory of the Dis machine over counted blocks, and what operands name in it, as a program beside the definition of dis_memory.
//!
//! A process has frames, and all processes share blocks, which are ref_heap's: both hold words. An operand names a byte among them
//! (`spot_of`); it lies in a region, a frame or a block (`reach`), whose words are read by their numbers (`nth`). Nothing is changed
//! here. `view_process` and `view_world` of `specs/` join the data here to those of the definitions; what kinds of blocks say by a
//! number, they say by `Tables`, whatever these are.
//!
//! In the order of reading: `fault` (why an access fails), `frame` and `process`, `memory`, `frames` and `blocks` (both by their
//! serials), `spots` (bytes and regions), `numbers`, and `operands`.
#![tactic(auto)]

mod blocks;
mod fault;
mod frame;
mod frames;
mod memory;
mod numbers;
mod operands;
mod process;
mod spots;

pub use blocks::data_of;
pub use fault::{Fault, Halt, Raise};
pub use frame::{Frame, blank};
pub use frames::{Slot, find, position};
pub use memory::{Memory, Tables};
pub use numbers::{byte_of, joined, nth_number, number_at, number_in};
pub use operands::{
    address, given_of, middle_of, middle_spot, middle_word, plain, read, read_number, reference,
    source_of, source_plain, source_word, spot_of,
};
pub use process::{Asking, Process};
pub use ref_heap::{Place, Ref, Word};
pub use spots::{Region, Spot, byte_number, nth, reach, word_number};
