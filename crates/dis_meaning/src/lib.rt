//! What one instruction of the Dis machine does, as a definition. No code stands here, only definitions and laws.
//!
//! `specs/` in the order of reading: `Words` (words of memory, and the numbers of faults), `World` (blocks, and the outside), `Process`
//! (frames), `Numbers` (numbers in words, and the table of the operations on them), `Places` (the words that operands name), `Formats`
//! (what a format makes of its arguments), `Step` (one instruction), `Rules` (the instructions as a language of process_model),
//! `Opening` (what a machine of an object begins with), `Counts` (how many references to a block there are), `Given` (which serials
//! frames have), `Laws`.
//!
//! A word is plain, a reference or an address, and takes only its own kind. Blocks and frames have serials, each of which is used once. A
//! frame is there for its own process alone. The instructions are so far `load`, `frame`, `call`, `mcall` of `print`, `ret`, `jmp`,
//! `lea`, `movw`, `movp`, `movm`, and those on bytes, ints and bigs that `Numbers` lists, by the operators of limbo_values; every other
//! is a fault. What raises an exception breaks the process. None of these lets a block go.
#![tactic(auto)]

mod laws;

pub use laws::{
    breaks_change_nothing, bytes_stay, faults_change_nothing, numbers_are_read_back,
    numbers_are_replaced, serials_are_given, stores_count,
};
